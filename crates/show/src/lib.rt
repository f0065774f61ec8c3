// Show: a record of an open command.
#![tactic(auto)]

ghost use Rattle.std.specs.Prelude.{◌≡◌};
ghost use Rattle.state.specs.Words.{state_of};
ghost use Rattle.state.specs.Answers.{show_reply};
ghost use Rattle.cache.specs.Show.{show_says};

use state::{CacheState, Record, Refusal};
use words::command::is_open;
use words::entries::{entry, used};

#[tactic(auto, unfolding(cache::specs::Show::show_says, state::specs::Verdict::verdict))]
pub fn show(
    state: &[u16; CacheState::WORDS],
    command: usize,
    index: usize,
) -> Result<Record, Refusal>
    ensures { show_reply result ≡ show_says (state_of state.now) command index }
{
    if CacheState::COMMANDS <= command {
        return Err(Refusal::CommandTooHigh);
    }
    if !integrity::holds(state) {
        return Err(Refusal::StateBroken);
    }
    if !is_open(state, command) {
        return Err(Refusal::CommandNotOpen);
    }
    let low = CacheState::COMMAND_WORDS * command;
    let own = &state[low..low + CacheState::COMMAND_WORDS];
    if used(own) <= index {
        return Err(Refusal::NoSuchRecord);
    }
    Ok(entry(own, index))
}
