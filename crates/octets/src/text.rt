// Text put into a buffer.
ghost use Rattle.octets.specs.Text.{Puts};

use crate::copy::copy_at;

// What does not fit is left out; the reply is the place behind what was put.
pub fn put(out: &mut [u8], at: usize, text: &[u8]) -> usize
    ensures { Puts out.old at text.now result out.new }
{
    copy_at(out, at, text);
    at.min(out.len()) + text.len().min(out.len().saturating_sub(at))
}
