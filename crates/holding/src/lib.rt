// A span of a byte or more comes to be held, for a fetch and for an own write: the records are searched, 23 and 24 are judged, the bytes that
// were not held before are taken from a source, and the union goes into the command's words. These are lent to be changed only after the
// verdict.
#![tactic(auto)]

ghost use Rattle.std.specs.Prelude.{length};
ghost use Rattle.holding.specs.Holding.{MayHold, Holds};

use admission::plan::planned;
use join::splice::splice;
use state::{CacheState, Refusal};
use store::part;

// How many addresses of the span were not held before, where its first byte stands among the packed bytes, and how many records were looked at.
#[derive(Clone, Copy)]
pub struct Holding {
    pub fresh: usize,
    pub place: usize,
    pub looked: usize,
}

// The source's first byte has the address `base`.
pub fn hold_span(
    state: &mut [u16; CacheState::WORDS],
    store: &mut [u8],
    source: &[u8],
    base: usize,
    command: usize,
    address: usize,
    size: usize,
) -> Result<Holding, Refusal>
    requires { MayHold state.old (length store.old) command address size base (length source.now) }
    ensures { Holds state.old store.old command address size base source.now result state.new store.new }
{
    let low = CacheState::COMMAND_WORDS * command;
    let own = &state[low..low + CacheState::COMMAND_WORDS];
    let plan = planned(own, address, size)?;
    part::hold(
        store,
        command,
        source,
        base,
        own,
        plan.m,
        plan.fresh,
        plan.behind,
    );
    splice(&mut state[low..low + CacheState::COMMAND_WORDS], plan.m);
    Ok(Holding {
        fresh: plan.fresh,
        place: plan.place,
        looked: plan.looked,
    })
}
