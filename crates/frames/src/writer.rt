// Writes a frame to the front of an output, or refuses and leaves the output as it is.
ghost use Rattle.std.specs.Prelude.{◌≡◌, length};
ghost use Rattle.frames.specs.Write.{write_reply, write_says, write_output};

use crate::checks::{data_size, zero_broken};
use crate::layout;
use crate::layout::HEAD;
use kinds::Kind;
use state::{CacheState, Refusal};

// Replies how many bytes the frame has. The kind is a number of any size, since C hands one.
#[tactic(auto, unfolding(crate::specs::Write::write_output, state::specs::Verdict::accepted))]
pub fn write(
    kind: usize,
    command: usize,
    address: usize,
    size: usize,
    data: &[u8],
    output: &mut [u8],
) -> Result<usize, Refusal>
    ensures reply { write_reply result ≡ write_says kind command address size (length «data».now) (length output.old) }
    ensures output { output.new ≡ write_output kind command address size «data».now output.old }
{
    let whole = judge(kind, command, address, size, data.len(), output.len())?;
    let head = layout::bytes(layout::packed(kind, command, address, size));
    octets::copy_front(output, &head);
    octets::copy_at(output, HEAD, data);
    Ok(whole)
}

// What is said of a step with `given` bytes of data and an output of `room` bytes.
#[tactic(auto, using(kinds::proofs::Table::known, crate::proofs::Sizes::data_at_most), unfolding(crate::specs::Write::write_says, state::specs::Verdict::verdict))]
fn judge(
    kind: usize,
    command: usize,
    address: usize,
    size: usize,
    given: usize,
    room: usize,
) -> Result<usize, Refusal>
    ensures { write_reply result ≡ write_says kind command address size given room }
{
    let kind = Kind::of(kind).ok_or(Refusal::UnknownKind)?;
    if zero_broken(kind, command, address, size, 0) {
        return Err(Refusal::FieldNotZero);
    }
    if size > CacheState::TRANSFER {
        return Err(Refusal::LengthTooLong);
    }
    let follow = data_size(kind, size);
    if given != follow {
        return Err(Refusal::DataMismatch);
    }
    if command >= CacheState::COMMANDS {
        return Err(Refusal::CommandTooHigh);
    }
    if room < HEAD + follow {
        return Err(Refusal::BufferTooShort);
    }
    if address >= CacheState::WINDOW {
        return Err(Refusal::AddressTooHigh);
    }
    Ok(HEAD + follow)
}
