// The entries of a command, read in its words.
ghost use Rattle.std.specs.Prelude.{◌≡◌, ◌<◌, ◌≤◌, length, drop};
ghost use Rattle.state.specs.Limits.{record_limit, command_words};
ghost use Rattle.state.specs.Records.{total};
ghost use Rattle.state.specs.State.{records_in};
ghost use Rattle.state.specs.Words.{record_at, command_in};

use state::{CacheState, Record};

// How many entries are records.
pub fn used(words: &[u16]) -> usize
    requires { length words.now ≡ command_words }
    ensures { (result ≡ length (records_in (command_in words.now))) × (result ≤ record_limit) }
{
    usize::from(words[0])
        .saturating_sub(1)
        .min(CacheState::RECORDS)
}

// An entry.
pub fn entry(words: &[u16], k: usize) -> Record
    requires { (length words.now ≡ command_words) × (k < record_limit) }
    ensures { result ≡ record_at words.now k }
{
    let at = 2 * k + 1;
    Record {
        start: words[at],
        len: words[at + 1],
    }
}

// How many distinct bytes the records from `from` on hold.
pub fn held_from(words: &[u16], from: usize) -> usize
    requires { length words.now ≡ command_words }
    ensures { result ≡ total (drop from (records_in (command_in words.now))) }
{
    let mut sum = 0;
    for i in from..used(words) {
        sum += usize::from(entry(words, i).len);
    }
    sum
}
