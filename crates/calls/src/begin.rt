// Begin: a closed command is opened with no records, and its part of the store is zeroed.
ghost use Rattle.cache.specs.Begin.{Begins};

use crate::judge::judge;
use state::{CacheState, Refusal};
use store::part;
use words::command::{is_open, reset};

pub fn begin(
    state: &mut [u16; CacheState::WORDS],
    store: &mut [u8],
    command: usize,
) -> Result<(), Refusal>
    ensures { Begins state.old store.old command result state.new store.new }
{
    judge(state, store.len(), command)?;
    if is_open(state, command) {
        return Err(Refusal::CommandAlreadyOpen);
    }
    part::zero(store, command, CacheState::HELD);
    let low = CacheState::COMMAND_WORDS * command;
    reset(&mut state[low..low + CacheState::COMMAND_WORDS], true);
    Ok(())
}
