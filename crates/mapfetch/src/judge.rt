// The half of fetch that judges: the refusal that applies, or the counts of the span. An own write is judged by it too.
ghost use Rattle.std.specs.Prelude.{◌≡◌, not, ◌||◌, ◌+◌, ◌≤◌, leb, length};
ghost use Rattle.octets.specs.Lists.{count};
ghost use Rattle.state.specs.Limits.{record_limit};
ghost use Rattle.state.specs.Records.{in_span, span};
ghost use Rattle.state.specs.Runs.{runs_from};
ghost use Rattle.state.specs.Answers.{map_fetch_reply};
ghost use Rattle.bits.specs.Bits.{map_limit, is_set};
ghost use Rattle.bytemap.specs.Map.{map_of};
ghost use Rattle.bytemap.specs.Fetch.{fetch_says};

use mapcalls::ByteMap;
use mapcalls::holds::holds;
use state::{CacheState, MapFetchCounts, Refusal, range};

// Whether there are at most 64 runs with the span too. It adds one at most, so that only a map that has 64 is counted again.
fn has_room(words: &[u64; ByteMap::WORDS], runs: usize, address: usize, size: usize) -> bool
    requires { (runs ≡ length (runs_from (is_set words.now) 0 map_limit)) × (address + size ≤ map_limit) }
    ensures { result ≡ leb (length (runs_from (λ x. is_set words.now x || in_span address size x) 0 map_limit)) record_limit }
{
    if runs < CacheState::RECORDS {
        return true;
    }
    bits::runs_with(words, address, address + size) <= CacheState::RECORDS
}

// The reply of an accepted fetch: the counts of its span.
fn counted(words: &[u64; ByteMap::WORDS], address: usize, size: usize) -> MapFetchCounts
    requires { address + size ≤ map_limit }
    ensures fresh { result.fresh ≡ count (λ x. not (is_set words.now x)) (span address size) }
    ensures replayed { result.replayed ≡ count (is_set words.now) (span address size) }
{
    let replayed = bits::count_span(words, address, address + size);
    MapFetchCounts {
        fresh: size - replayed,
        replayed,
    }
}

// The first check that applies is given.
pub fn judge(
    flag: u64,
    words: &[u64; ByteMap::WORDS],
    values: &[u8; ByteMap::ADDRESSES],
    window_len: usize,
    destination_len: usize,
    address: usize,
    size: usize,
) -> Result<MapFetchCounts, Refusal>
    ensures { map_fetch_reply result ≡ fetch_says (map_of flag words.now values.now) window_len destination_len address size }
{
    if CacheState::TRANSFER < size {
        return Err(Refusal::LengthTooLong);
    }
    if ByteMap::ADDRESSES < window_len {
        return Err(Refusal::WindowBeyondMap);
    }
    if range::outside(window_len, address, size) {
        return Err(Refusal::OutsideWindow);
    }
    if destination_len < size {
        return Err(Refusal::BufferTooShort);
    }
    let runs = bits::runs(words);
    if !holds(flag, words, values, runs) {
        return Err(Refusal::StateBroken);
    }
    if flag == 0 {
        return Err(Refusal::CommandNotOpen);
    }
    if !has_room(words, runs, address, size) {
        return Err(Refusal::TooManyRecords);
    }
    Ok(counted(words, address, size))
}
