// Runs, counted by walking over the words: those of the set bits, and those of the set bits and a span together.
ghost use Rattle.std.specs.Prelude.{◌≡◌, ◌||◌, ◌-◌, ◌/◌, ◌<◌, ◌≤◌, length, ℕ, List};
ghost use Rattle.state.specs.Records.{in_span};
ghost use Rattle.state.specs.Runs.{runs_from};
ghost use Rattle.bits.specs.Bits.{word_limit, map_limit, is_set};
ghost use Rattle.bits.specs.Walk.{BitsPut, Walking, WalksOn, WalksSpan};

use super::WORDS;
use super::each::{span_bits, starts};

// How far a walk over the words has come: how many runs start below, and the highest bit below, so that a run over the edge of a word
// counts once.
#[derive(Drop)]
struct Walk {
    n: usize,
    carry: u64,
}

// Walks on, from word `from` up to word `to`, with the bits that `added` gives for a word put to it.
fn walk_on<F: Fn(usize) -> u64>(
    words: &[u64; WORDS],
    added: F,
    from: usize,
    to: usize,
    w: Walk,
) -> Walk
    requires within { (from ≤ to) × (to ≤ word_limit) × Walking w from }
    requires gives { (i : ℕ) → i < word_limit → F.pre added i }
    ensures { (both : List ℕ) → BitsPut (F.post added) words.now from to both → WalksOn both from to w result }
{
    let mut n = w.n;
    let mut carry = w.carry;
    for i in from..to {
        let word = words[i] | added(i);
        n += starts(word, carry);
        carry = word >> 63;
    }
    Walk { n, carry }
}

// Walks over the words that have an address of the span, with the bits of the span added.
fn walk_span(words: &[u64; WORDS], low: usize, high: usize, w: Walk) -> Walk
    requires { (low ≤ high) × (high ≤ map_limit) × Walking w (low / 64) }
    ensures { WalksSpan words.now low high w result }
{
    walk_on(
        words,
        |i| span_bits(i, low, high),
        low / 64,
        (high + 63) / 64,
        w,
    )
}

// How many runs the set bits make.
pub fn runs(words: &[u64; WORDS]) -> usize
    ensures { result ≡ length (runs_from (is_set words.now) 0 map_limit) }
{
    let w = walk_on(words, |_| 0, 0, 64, Walk { n: 0, carry: 0 });
    w.n
}

// How many runs the addresses make that are set or in the span.
pub fn runs_with(words: &[u64; WORDS], low: usize, high: usize) -> usize
    requires { (low ≤ high) × (high ≤ map_limit) }
    ensures { result ≡ length (runs_from (λ x. is_set words.now x || in_span low (high - low) x) 0 map_limit) }
{
    let below = walk_on(words, |_| 0, 0, low / 64, Walk { n: 0, carry: 0 });
    let over = walk_span(words, low, high, below);
    let w = walk_on(words, |_| 0, (high + 63) / 64, 64, over);
    w.n
}
