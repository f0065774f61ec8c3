// Whether the values are zero where the addresses are not held.
ghost use Rattle.std.specs.Prelude.{◌≡◌, false, length};
ghost use Rattle.bits.specs.Bits.{bit, is_set, map_limit};
ghost use Rattle.stretches.specs.Values.{clean, Stretch};

use crate::stretch::alike;

// Where none is held all values must be zero. They are joined by a bitwise or, with no test before the end, so that many are looked at in one
// instruction. (One line for a width: a function over the width would need a trait with a law of `|`, which is no plainer.)
fn clean_none(values: &[u8]) -> bool
    ensures { result ≡ clean (λ x. false) values.now 0 (length values.now) }
{
    values.iter().fold(0, |or, value| or | value) == 0
}

// The values of a stretch, of which the lowest bit tells whether it is held. Where it is, any values may stand.
fn clean_stretch(bits: u64, values: &[u8]) -> bool
    requires { Stretch bits (length values.now) }
    ensures { result ≡ clean (bit bits) values.now 0 (length values.now) }
{
    if bits % 2 == 1 {
        return true;
    }
    clean_none(values)
}

// The values of one word of the map, stretch after stretch.
fn clean_stretches(bits: u64, values: &[u8]) -> bool
    requires { length values.now ≡ 64 }
    ensures { result ≡ clean (bit bits) values.now 0 64 }
{
    let mut x = 0;
    // a while, since a step is as long as its stretch
    while x < 64 {
        let rest = bits >> x;
        let k = alike(rest, 64 - x);
        if !clean_stretch(rest, &values[x..x + k]) {
            return false;
        }
        x += k;
    }
    true
}

// The same; a word with no bit set, as most have none, is looked at in one go.
fn clean_word(bits: u64, values: &[u8]) -> bool
    requires { length values.now ≡ 64 }
    ensures { result ≡ clean (bit bits) values.now 0 64 }
{
    if bits == 0 {
        return clean_none(values);
    }
    clean_stretches(bits, values)
}

// The values of the whole map, word after word.
pub fn clean(words: &[u64; bits::WORDS], values: &[u8; bits::ADDRESSES]) -> bool
    ensures { result ≡ clean (is_set words.now) values.now 0 map_limit }
{
    for i in 0..64 {
        let low = 64 * i;
        if !clean_word(words[i], &values[low..low + 64]) {
            return false;
        }
    }
    true
}
