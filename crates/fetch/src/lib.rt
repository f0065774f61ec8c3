// Fetch: a span is delivered to the destination. What of it was not held before is read from the window, and is held from then on.
#![tactic(auto)]

ghost use Rattle.std.specs.Prelude.{◌≡◌, [], true, ◌<◌, length};
ghost use Rattle.state.specs.Verdict.{replied, accepted, verdict};
ghost use Rattle.cache.specs.Fetch.{admit_checks};
ghost use Rattle.state.specs.Words.{state_of};
ghost use Rattle.fetch.specs.Fetch.{Fetches};

use admission::admit::admit;
use holding::hold_span;
use state::{CacheState, FetchCounts, Refusal};
use store::part;

// A span of a byte or more: it is held, if there is room for what it brings, and then it lies in one record, side by side, and is delivered from
// there.
fn fetch_span(
    state: &mut [u16; CacheState::WORDS],
    store: &mut [u8],
    window: &[u8],
    destination: &mut [u8],
    command: usize,
    address: usize,
    size: usize,
) -> Result<FetchCounts, Refusal>
    requires { (accepted (verdict (admit_checks (state_of state.old) (length store.old) (length window.now) (length destination.old) command address size) (replied [])) ≡ true) × (0 < size) }
    ensures { Fetches state.old store.old window.now destination.old command address size result state.new store.new destination.new }
{
    let held = hold_span(state, store, window, 0, command, address, size)?;
    part::deliver(store, command, held.place, size, destination);
    Ok(FetchCounts {
        fresh: held.fresh,
        replayed: size - held.fresh,
        looked: held.looked,
    })
}

pub fn fetch(
    state: &mut [u16; CacheState::WORDS],
    store: &mut [u8],
    window: &[u8],
    destination: &mut [u8],
    command: usize,
    address: usize,
    size: usize,
) -> Result<FetchCounts, Refusal>
    ensures { Fetches state.old store.old window.now destination.old command address size result state.new store.new destination.new }
{
    admit(
        state,
        store.len(),
        window.len(),
        destination.len(),
        command,
        address,
        size,
    )?;
    if size == 0 {
        return Ok(FetchCounts {
            fresh: 0,
            replayed: 0,
            looked: 0,
        });
    }
    fetch_span(state, store, window, destination, command, address, size)
}
