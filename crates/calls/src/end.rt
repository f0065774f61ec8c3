// End: an open command is closed, its records are dropped, and its part of the store is zeroed.
ghost use Rattle.cache.specs.End.{Ends};

use crate::judge::judge;
use state::{CacheState, EndCounts, Refusal};
use store::part;
use words::command::{is_open, reset};
use words::entries::{held_from, used};

pub fn end(
    state: &mut [u16; CacheState::WORDS],
    store: &mut [u8],
    command: usize,
) -> Result<EndCounts, Refusal>
    ensures { Ends state.old store.old command result state.new store.new }
{
    judge(state, store.len(), command)?;
    if !is_open(state, command) {
        return Err(Refusal::CommandNotOpen);
    }
    let low = CacheState::COMMAND_WORDS * command;
    let own = &mut state[low..low + CacheState::COMMAND_WORDS];
    let counts = EndCounts {
        records: used(own),
        bytes: held_from(own, 0),
    };
    part::zero(store, command, CacheState::HELD);
    reset(own, false);
    Ok(counts)
}
