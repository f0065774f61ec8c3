// The reason of a refusal put into a lent buffer.
ghost use Rattle.octets.specs.Text.{ascii, Puts};
ghost use Rattle.reasons.specs.Reasons.{reason};

use crate::reason::reason;
use octets::put;
use state::Refusal;

pub fn put_reason(out: &mut [u8], at: usize, refusal: Refusal) -> usize
    ensures { Puts out.old at (ascii (reason refusal)) result out.new }
{
    put(out, at, reason(refusal))
}
