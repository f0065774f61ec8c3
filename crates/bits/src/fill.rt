// Whether no bit is set, and the setting of a span.
ghost use Rattle.std.specs.Prelude.{◌≡◌, ◌||◌, ◌-◌, ◌≤◌};
ghost use Rattle.octets.specs.Lists.{all_zero};
ghost use Rattle.state.specs.Records.{in_span};
ghost use Rattle.bits.specs.Bits.{map_limit, is_set, words_of};

use super::WORDS;
use super::each::span_bits;

// Whether no bit is set. The words are joined by a bitwise or, with no test before the end, so that several are looked at in one
// instruction. (One line for a width: a function over the width would need a trait with a law of `|`, which is no plainer.)
pub fn all_zero(words: &[u64]) -> bool
    ensures { result ≡ all_zero words.now }
{
    words.iter().fold(0, |or, word| or | word) == 0
}

// Sets every address of the span. Only the words that have an address of it are touched, and one at most if it is empty.
pub fn set_span(words: &mut [u64; WORDS], low: usize, high: usize)
    requires { (low ≤ high) × (high ≤ map_limit) }
    ensures { words.new ≡ words_of (λ x. is_set words.old x || in_span low (high - low) x) }
{
    for i in low / 64..(high + 63) / 64 {
        words[i] |= span_bits(i, low, high);
    }
}
