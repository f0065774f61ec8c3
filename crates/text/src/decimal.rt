// Numbers in decimal.
ghost use Rattle.std.specs.Prelude.{◌≡◌, ◌<◌};
ghost use Rattle.octets.specs.Text.{Puts};
ghost use Rattle.text.specs.Decimal.{digit, decimal};

use octets::put;

// The most digits of a number of 64 bits.
const DIGITS: usize = 20;

// The digits go into a buffer of their own, the last one first, from its end down.
pub fn put_decimal(out: &mut [u8], at: usize, n: usize) -> usize
    ensures { Puts out.old at (decimal n) result out.new }
{
    let mut digits = [0u8; DIGITS];
    let mut rest = n;
    for start in (0..DIGITS).rev() {
        digits[start] = digit(rest % 10);
        if rest < 10 {
            return put(out, at, &digits[start..]);
        }
        rest /= 10;
    }
    // No number of 64 bits has more digits than there are places.
    unreachable!()
}

fn digit(n: usize) -> u8
    requires { n < 10 }
    ensures { result ≡ digit n }
{
    b'0' + n as u8
}
