// The union takes the place of the records that were met, in place.
ghost use Rattle.std.specs.Prelude.{◌≡◌, true, cond, ◌+◌, ◌*◌, ◌-◌, ◌<◌, ◌≤◌, ltb, length, set};
ghost use Rattle.state.specs.Limits.{record_limit, command_words};
ghost use Rattle.state.specs.State.{records_in, no_record};
ghost use Rattle.state.specs.Join.{union_of, spliced};
ghost use Rattle.state.specs.Words.{record_at, command_in};
ghost use Rattle.join.specs.Splice.{MovedUp, MovedDown, Sealed};

use state::{CacheState, Meeting, Record};
use words::entries::{entry, used};

// An entry, or zeros behind the last.
fn entry_or_none(words: &[u16], k: usize) -> Record
    requires { length words.now ≡ command_words }
    ensures { result ≡ cond (ltb k record_limit) (record_at words.now k) no_record }
{
    if k < CacheState::RECORDS {
        return entry(words, k);
    }
    Record { start: 0, len: 0 }
}

// An entry is written.
fn put(words: &mut [u16], k: usize, r: Record)
    requires { (length words.old ≡ command_words) × (k < record_limit) }
    ensures { words.new ≡ set (set words.old (2 * k + 1) r.start) (2 * k + 1 + 1) r.len }
{
    let at = 2 * k + 1;
    words[at] = r.start;
    words[at + 1] = r.len;
}

// The union, as its entry holds it.
fn union(m: Meeting) -> Record
    ensures { result ≡ union_of m }
{
    let size = m.high.saturating_sub(m.low);
    Record {
        start: (m.low % 65536) as u16,
        len: (size % 65536) as u16,
    }
}

// The entries from `first` up to `used` move up by one place.
fn move_up(words: &mut [u16], first: usize, used: usize)
    requires { (length words.old ≡ command_words) × (first ≤ used) × (used < record_limit) }
    ensures { MovedUp words.old first used words.new }
{
    for k in (first..used).rev() {
        let r = entry(words, k);
        put(words, k + 1, r);
    }
}

// The entries from `from` on move down to the places from `to` up to `end`.
fn move_down(words: &mut [u16], to: usize, from: usize, end: usize)
    requires { (length words.old ≡ command_words) × (to ≤ from) × (to ≤ end) × (from ≤ record_limit) × (end ≤ record_limit) }
    ensures { MovedDown words.old to from end words.new }
{
    for k in to..end {
        let r = entry_or_none(words, from + (k - to));
        put(words, k, r);
    }
}

// The union is written to its entry, and the number of records to the first word.
fn seal(words: &mut [u16], m: Meeting, count: usize)
    requires { (length words.old ≡ command_words) × (m.first < record_limit) × (count ≤ record_limit) }
    ensures { Sealed words.old m count words.new }
{
    let first = m.first;
    put(words, first, union(m));
    words[0] = (count + 1) as u16;
}

pub fn splice(words: &mut [u16], m: Meeting)
    requires { (length words.old ≡ command_words) × ((command_in words.old).opened ≡ true) × (m.first ≤ m.last) × (m.last ≤ length (records_in (command_in words.old))) × (m.first + 1 + (length (records_in (command_in words.old)) - m.last) ≤ record_limit) }
    ensures { (command_in words.new ≡ spliced (command_in words.old) m) × (length words.new ≡ command_words) }
{
    let n = used(words);
    let first = m.first;
    let last = m.last;
    let count = first + 1 + (n - last);
    if last == first + 1 {
        seal(words, m, count);
        return;
    }
    if last == first {
        move_up(words, first, n);
        seal(words, m, count);
        return;
    }
    let end = (n + 1).min(CacheState::RECORDS);
    move_down(words, first + 1, last, end);
    seal(words, m, count);
}
