// Whether a check that needs no search of the records bars the call. The state is read.
ghost use Rattle.std.specs.Prelude.{◌≡◌, []};
ghost use Rattle.state.specs.Words.{state_of};
ghost use Rattle.state.specs.Verdict.{replied, verdict};
ghost use Rattle.cache.specs.Fetch.{admit_checks};
ghost use Rattle.admission.specs.Plan.{admission_reply};

use state::{CacheState, Refusal, range};
use words::command::is_open;

#[tactic(auto, unfolding(state::specs::Verdict::verdict))]
pub fn admit(
    state: &[u16; CacheState::WORDS],
    store_len: usize,
    window_len: usize,
    room: usize,
    command: usize,
    address: usize,
    size: usize,
) -> Result<(), Refusal>
    ensures { admission_reply result ≡ verdict (admit_checks (state_of state.now) store_len window_len room command address size) (replied []) }
{
    if CacheState::TRANSFER < size {
        return Err(Refusal::LengthTooLong);
    }
    if CacheState::COMMANDS <= command {
        return Err(Refusal::CommandTooHigh);
    }
    if CacheState::WINDOW < window_len {
        return Err(Refusal::WindowTooLong);
    }
    if store_len != CacheState::STORE {
        return Err(Refusal::StoreWrongSize);
    }
    if range::outside(window_len, address, size) {
        return Err(Refusal::OutsideWindow);
    }
    if room < size {
        return Err(Refusal::BufferTooShort);
    }
    if !integrity::holds(state) {
        return Err(Refusal::StateBroken);
    }
    if !is_open(state, command) {
        return Err(Refusal::CommandNotOpen);
    }
    Ok(())
}
