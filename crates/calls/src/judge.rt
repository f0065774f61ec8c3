// What begin and end are judged by alike: 6, 8, 20. The state is read.
ghost use Rattle.std.specs.Prelude.{◌≡◌, ◌<◌, [], ◌∷◌, OnOk};
ghost use Rattle.state.specs.Limits.{command_limit, store_size};
ghost use Rattle.state.specs.Words.{state_of};
ghost use Rattle.state.specs.Answers.{begin_reply};
ghost use Rattle.state.specs.Checks.{command_too_high, store_wrong_size, state_broken};
ghost use Rattle.state.specs.Verdict.{replied, verdict};

use state::{CacheState, Refusal};

#[tactic(auto, unfolding(state::specs::Verdict::verdict))]
pub(crate) fn judge(
    state: &[u16; CacheState::WORDS],
    store_len: usize,
    command: usize,
) -> Result<(), Refusal>
    ensures ready { OnOk result ((command < command_limit) × (store_len ≡ store_size)) }
    ensures reply { begin_reply result ≡ verdict (command_too_high command ∷ store_wrong_size store_len ∷ state_broken (state_of state.now) ∷ []) (replied []) }
{
    if CacheState::COMMANDS <= command {
        return Err(Refusal::CommandTooHigh);
    }
    if store_len != CacheState::STORE {
        return Err(Refusal::StoreWrongSize);
    }
    if !integrity::holds(state) {
        return Err(Refusal::StateBroken);
    }
    Ok(())
}
