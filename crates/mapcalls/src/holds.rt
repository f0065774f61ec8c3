// Whether a map holds together.
ghost use Rattle.std.specs.Prelude.{◌≡◌, ◌||◌, cond, ltb, length, Ok, Err};
ghost use Rattle.octets.specs.Lists.{all_zero};
ghost use Rattle.state.specs.Runs.{runs_from};
ghost use Rattle.bits.specs.Bits.{map_limit, is_set};
ghost use Rattle.bytemap.specs.Map.{map_of, holds};

use crate::ByteMap;
use state::{CacheState, Refusal};
use stretches::clean::clean;

// Whether the command is open, or no bit is set.
fn open_or_empty(flag: u64, words: &[u64]) -> bool
    ensures { result ≡ (ltb 0 flag || all_zero words.now) }
{
    flag != 0 || bits::all_zero(words)
}

// Whether the map holds together; the caller has counted its runs.
pub fn holds(
    flag: u64,
    words: &[u64; ByteMap::WORDS],
    values: &[u8; ByteMap::ADDRESSES],
    runs: usize,
) -> bool
    requires { runs ≡ length (runs_from (is_set words.now) 0 map_limit) }
    ensures { result ≡ holds (map_of flag words.now values.now) }
{
    if !open_or_empty(flag, words) {
        return false;
    }
    if !clean(words, values) {
        return false;
    }
    runs <= CacheState::RECORDS
}

// What begin and end are judged by alike, 20: how many runs a map has that holds together.
pub(crate) fn whole(
    flag: u64,
    words: &[u64; ByteMap::WORDS],
    values: &[u8; ByteMap::ADDRESSES],
) -> Result<usize, Refusal>
    ensures { result ≡ cond (holds (map_of flag words.now values.now)) (Ok (length (runs_from (is_set words.now) 0 map_limit))) (Err Refusal.StateBroken) }
{
    let runs = bits::runs(words);
    if !holds(flag, words, values, runs) {
        return Err(Refusal::StateBroken);
    }
    Ok(runs)
}
