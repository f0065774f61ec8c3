// How many bits are set: of all words, and of a span.
ghost use Rattle.std.specs.Prelude.{◌≡◌, ◌-◌, ◌≤◌};
ghost use Rattle.octets.specs.Lists.{count};
ghost use Rattle.state.specs.Records.{span};
ghost use Rattle.bits.specs.Bits.{map_limit, is_set, ones_of};

use super::WORDS;
use super::each::{span_bits, tally};

// The ones of all words. Of a span the words are masked, and only some are looked at: one function for both would be no plainer.
pub fn ones(words: &[u64; WORDS]) -> usize
    ensures { result ≡ ones_of words.now }
{
    let mut n = 0;
    for word in words {
        n += tally(*word);
    }
    n
}

// How many addresses of the span are set. Only the words that have an address of it are looked at, and one at most if it is empty.
pub fn count_span(words: &[u64; WORDS], low: usize, high: usize) -> usize
    requires { (low ≤ high) × (high ≤ map_limit) }
    ensures { result ≡ count (is_set words.now) (span low (high - low)) }
{
    let mut n = 0;
    for i in low / 64..(high + 63) / 64 {
        n += tally(words[i] & span_bits(i, low, high));
    }
    n
}
