// Each refusal has its words.
ghost use Rattle.std.specs.Prelude.{◌≡◌};
ghost use Rattle.octets.specs.Text.{ascii};
ghost use Rattle.reasons.specs.Reasons.{reason};

use state::Refusal;

pub(crate) fn reason(refusal: Refusal) -> &'static [u8]
    ensures { result.now ≡ ascii (reason refusal) }
{
    match refusal {
        Refusal::FrameTooShort => b"the frame ends before its fifth byte",
        Refusal::UnknownKind => b"no kind of step has this number",
        Refusal::FieldNotZero => b"a field or bit that must be zero is not",
        Refusal::LengthTooLong => b"the length is above 4096",
        Refusal::DataMismatch => b"data and length do not agree",
        Refusal::CommandTooHigh => b"the command is above 7",
        Refusal::WindowTooLong => b"the window is longer than 65536 bytes",
        Refusal::StoreWrongSize => b"the store is not 32768 bytes long",
        Refusal::OutsideWindow => b"the span ends beyond the window",
        Refusal::BufferTooShort => b"the buffer lent for the result is too short",
        Refusal::AddressTooHigh => b"the address is above 65535",
        Refusal::StateBroken => b"the state does not hold together",
        Refusal::CommandNotOpen => b"the command is not open",
        Refusal::CommandAlreadyOpen => b"the command is open already",
        Refusal::TooManyBytes => b"the command would hold more than 4096 bytes",
        Refusal::TooManyRecords => b"the command would have more than 64 records",
        Refusal::NoSuchRecord => b"the command has no record of this number",
        Refusal::WindowBeyondMap => b"the window is longer than 4096 bytes",
        Refusal::TransferOutOfRange => b"the transfer is not 1 to 65536 bytes",
        Refusal::EntryMisaligned => b"a page entry is not the multiple it must be",
    }
}
