// Reads a frame: the step and the number of bytes that it took up, or a refusal.
ghost use Rattle.std.specs.Prelude.{◌≡◌, ◌+◌, [], ◌∷◌, false};
ghost use Rattle.kinds.specs.Table.{number};
ghost use Rattle.frames.specs.Layout.{head_size};
ghost use Rattle.frames.specs.Checks.{zero_broken};
ghost use Rattle.frames.specs.Read.{step_numbers, read_reply, fields_say, read_says, data_of};

use crate::checks::{data_size, zero_broken};
use crate::layout::{HEAD, Head};
use crate::{Parsed, Step, layout};
use kinds::Kind;
use state::{CacheState, Refusal};

#[tactic(auto, unfolding(crate::specs::Read::read_says, crate::specs::Read::fields_say, state::specs::Verdict::verdict))]
pub fn read(frame: &[u8]) -> Result<Parsed, Refusal>
    ensures { read_reply result ≡ read_says frame.now }
{
    let (head, behind) = frame
        .split_first_chunk::<HEAD>()
        .ok_or(Refusal::FrameTooShort)?;
    judge(behind.len(), layout::read_head(head))
}

// What the fields of a frame with `behind` bytes behind its head say.
#[tactic(auto, using(kinds::proofs::Table::known, crate::proofs::Sizes::data_at_most), unfolding(crate::specs::Read::fields_say, state::specs::Verdict::verdict))]
fn judge(behind: usize, head: Head) -> Result<Parsed, Refusal>
    ensures { read_reply result ≡ fields_say (head_size + behind) head.kind head.command head.address head.size head.spare }
{
    let kind = Kind::of(head.kind).ok_or(Refusal::UnknownKind)?;
    if zero_broken(kind, head.command, head.address, head.size, head.spare) {
        return Err(Refusal::FieldNotZero);
    }
    if head.size > CacheState::TRANSFER {
        return Err(Refusal::LengthTooLong);
    }
    let follow = data_size(kind, head.size);
    if behind < follow {
        return Err(Refusal::DataMismatch);
    }
    Ok(Parsed {
        consumed: HEAD + follow,
        step: step_of(kind, head),
    })
}

// The step of a head whose zero fields are zero.
#[tactic(auto, unfolding(crate::specs::Checks::zero_broken, crate::specs::Checks::not_zero))]
fn step_of(kind: Kind, head: Head) -> Step
    requires { zero_broken (number kind) head.command head.address head.size head.spare ≡ false }
    ensures { step_numbers result ≡ number kind ∷ head.command ∷ head.address ∷ head.size ∷ [] }
{
    let command = head.command;
    let address = head.address;
    let size = head.size;
    match kind {
        Kind::Begin => Step::Begin { command },
        Kind::Fetch => Step::Fetch {
            command,
            address,
            size,
        },
        Kind::End => Step::End { command },
        Kind::HostWrite => Step::HostWrite { address, size },
        Kind::OwnWrite => Step::OwnWrite {
            command,
            address,
            size,
        },
    }
}

// The step's data, as a part of the frame.
pub fn data(frame: &[u8], consumed: usize) -> &[u8]
    ensures { result.now ≡ data_of frame.now consumed }
{
    frame.get(HEAD..consumed).unwrap_or(&[])
}
