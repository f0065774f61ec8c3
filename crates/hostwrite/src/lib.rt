// Host write: bytes are copied into the window.
#![tactic(auto)]

ghost use Rattle.std.specs.Prelude.{◌≡◌, [], length};
ghost use Rattle.state.specs.Answers.{begin_reply, host_write_reply};
ghost use Rattle.state.specs.Verdict.{replied, verdict};
ghost use Rattle.cache.specs.HostWrite.{host_checks, host_says, host_window};

use state::{CacheState, Refusal, range};

#[tactic(auto, unfolding(state::specs::Verdict::verdict))]
fn judge(window_len: usize, address: usize, size: usize) -> Result<(), Refusal>
    ensures { begin_reply result ≡ verdict (host_checks window_len address size) (replied []) }
{
    if CacheState::TRANSFER < size {
        return Err(Refusal::LengthTooLong);
    }
    if CacheState::WINDOW < window_len {
        return Err(Refusal::WindowTooLong);
    }
    if range::outside(window_len, address, size) {
        return Err(Refusal::OutsideWindow);
    }
    Ok(())
}

pub fn host_write(window: &mut [u8], address: usize, bytes: &[u8]) -> Result<usize, Refusal>
    ensures reply { host_write_reply result ≡ host_says (length window.old) address (length bytes.now) }
    ensures window { window.new ≡ host_window window.old address bytes.now }
{
    judge(window.len(), address, bytes.len())?;
    octets::copy_at(window, address, bytes);
    Ok(bytes.len())
}
