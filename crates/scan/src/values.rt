// What the digits of a word stand for.
ghost use Rattle.std.specs.Prelude.{◌≡◌, min, length, take};
ghost use Rattle.octets.specs.Lists.{overwrite};
ghost use Rattle.text.specs.Decimal.{value_of};
ghost use Rattle.scan.specs.Values.{most, pair_value, bytes_of};

use crate::classes::hex_value;

// A number above this counts as this one.
const MOST: usize = 1000000;

// The number that decimal digits stand for.
pub fn value(word: &[u8]) -> usize
    ensures { result ≡ min most (value_of word.now) }
{
    let mut value = 0;
    for byte in word {
        value = MOST.min(value * 10 + usize::from(byte.saturating_sub(b'0')));
    }
    value
}

// The byte of two digits. A byte that is no digit counts as 0.
fn pair_value(high: u8, low: u8) -> u8
    ensures { result ≡ pair_value high low }
{
    hex_value(high).unwrap_or(0) * 16 + hex_value(low).unwrap_or(0)
}

// Puts the bytes of a word to the front of a buffer, as many as there is room for.
pub fn decode(word: &[u8], buffer: &mut [u8])
    ensures { buffer.new ≡ overwrite buffer.old 0 (take (length buffer.old) (bytes_of word.now)) }
{
    let n = buffer.len().min(word.len() / 2);
    for i in 0..n {
        buffer[i] = pair_value(word[2 * i], word[2 * i + 1]);
    }
}
