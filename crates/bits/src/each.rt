// One word of 64 bits: how many are set, which of them lie in a span, and where runs start in it.
ghost use Rattle.std.specs.Prelude.{◌≡◌, ◌+◌, ◌-◌, ◌*◌, ◌<◌, ◌≤◌, ltb, eqb};
ghost use Rattle.std.specs.Int.Count.{ones};
ghost use Rattle.octets.specs.Lists.{count};
ghost use Rattle.state.specs.Records.{span, in_span};
ghost use Rattle.bits.specs.Bits.{word_limit, map_limit, bit, word_of, starts_at};

// How many bits of a word are set.
pub fn tally(w: u64) -> usize
    ensures { (result ≡ ones w) × (result ≤ 64) }
{
    u64::count_ones(w) as usize
}

// The bits below a place, or all of them.
fn first_bits(n: usize) -> u64
    ensures { result ≡ word_of (λ j. ltb j n) 64 }
{
    if n < 64 { (1 << n) - 1 } else { u64::MAX }
}

// The bits of word i that lie in the addresses from low up to high.
pub fn span_bits(i: usize, low: usize, high: usize) -> u64
    requires { (i < word_limit) × (low ≤ high) × (high ≤ map_limit) }
    ensures { result ≡ word_of (λ j. in_span low (high - low) (64 * i + j)) 64 }
{
    let base = 64 * i;
    first_bits(high.saturating_sub(base)) - first_bits(low.saturating_sub(base))
}

// At how many bits of a word a run starts, where `carry` is the bit below its lowest.
pub fn starts(w: u64, carry: u64) -> usize
    requires { carry ≤ 1 }
    ensures { (result ≡ count (starts_at (eqb carry 1) (bit w)) (span 0 64)) × (result ≤ 64) }
{
    tally(w & !((w << 1) | carry))
}
