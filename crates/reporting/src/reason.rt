// Why a line has no frame, in words.
ghost use Rattle.std.specs.Prelude.{◌≡◌};
ghost use Rattle.octets.specs.Text.{ascii, Puts};
ghost use Rattle.reporting.specs.Words.{fault, refusal};

use fields::Fault;
use octets::put;
use state::Refusal;

fn fault(why: Fault) -> &'static [u8]
    ensures { result.now ≡ ascii (fault why) }
{
    match why {
        Fault::UnknownLetter => b"no kind of step has this letter",
        Fault::FieldMissing => b"a field is missing",
        Fault::NotANumber => b"not a decimal number",
        Fault::NotHexadecimal => b"not hexadecimal",
        Fault::OddDigits => b"an odd number of hexadecimal digits",
        Fault::FieldTooMany => b"a field too many",
        Fault::ByteOrderMark => b"a byte order mark stands before the step",
        Fault::NothingExpected => b"nothing stands behind =",
        Fault::NoStep => b"an expectation without a step",
    }
}

pub(crate) fn put_fault(note: &mut [u8], at: usize, why: Fault) -> usize
    ensures { Puts note.old at (ascii (fault why)) result note.new }
{
    put(note, at, fault(why))
}

// The reason in words, and its number in brackets.
pub(crate) fn put_refusal(note: &mut [u8], at: usize, why: Refusal) -> usize
    ensures { Puts note.old at (refusal why) result note.new }
{
    let next = reasons::put_reason(note, at, why);
    let next = put(note, next, b" (");
    let next = text::put_decimal(note, next, usize::from(why.number()));
    put(note, next, b")")
}
