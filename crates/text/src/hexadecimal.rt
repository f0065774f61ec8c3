// Bytes in hexadecimal.
ghost use Rattle.std.specs.Prelude.{◌≡◌, ◌*◌, ◌≤◌, length};
ghost use Rattle.octets.specs.Lists.{overwrite};
ghost use Rattle.octets.specs.Text.{Puts};
ghost use Rattle.text.specs.Hexadecimal.{hex_digits, hex_pair, hexadecimal};

use octets::put;

// The sixteen digits, in order.
const DIGITS: [u8; 16] = *b"0123456789abcdef";

// The bytes for which there is room in pairs are put with no test of a place, and then what fits of the next one.
pub fn put_hex(out: &mut [u8], at: usize, bytes: &[u8]) -> usize
    ensures { Puts out.old at (hexadecimal bytes.now) result out.new }
{
    if out.len() <= at {
        return out.len();
    }
    let whole = bytes.len().min((out.len() - at) / 2);
    put_pairs(&mut out[at..], &bytes[..whole]);
    let next = at + 2 * whole;
    match bytes.get(whole) {
        Some(byte) => put_pair(out, next, *byte),
        None => next,
    }
}

// All the bytes, at the front of a buffer with room for them.
fn put_pairs(out: &mut [u8], bytes: &[u8])
    requires { 2 * length bytes.now ≤ length out.old }
    ensures { out.new ≡ overwrite out.old 0 (hexadecimal bytes.now) }
{
    let digits = DIGITS;
    for (i, byte) in bytes.iter().enumerate() {
        let pair = hex_pair(&digits, *byte);
        out[2 * i] = pair[0];
        out[2 * i + 1] = pair[1];
    }
}

// One byte, as far as there is room.
fn put_pair(out: &mut [u8], at: usize, byte: u8) -> usize
    ensures { Puts out.old at (hex_pair byte) result out.new }
{
    let digits = DIGITS;
    let pair = hex_pair(&digits, byte);
    put(out, at, &pair)
}

// The two characters of a byte.
fn hex_pair(digits: &[u8; 16], byte: u8) -> [u8; 2]
    requires { digits.now ≡ hex_digits }
    ensures { result ≡ hex_pair byte }
{
    let high = usize::from(byte / 16);
    let low = usize::from(byte % 16);
    [digits[high], digits[low]]
}
