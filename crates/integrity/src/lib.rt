// Whether a state holds together, read in place.
#![tactic(auto)]

ghost use Rattle.std.specs.Prelude.{◌≡◌, ◌<◌, ◌≤◌, ◌&&◌, length, drop, nat_le, nat_lt};
ghost use Rattle.octets.specs.Lists.{all, all_zero};
ghost use Rattle.state.specs.Limits.{record_limit, held_limit, command_words};
ghost use Rattle.state.specs.Records.{total};
ghost use Rattle.state.specs.State.{records_in, ascending, is_zero, command_holds, holds};
ghost use Rattle.state.specs.Words.{entries_in, command_in, state_of};
ghost use Rattle.integrity.specs.Holds.{is_faultless, Walking, Walked};

use state::{CacheState, Record};
use words::entries::entry;

// A number below 2^31 if a record starts at `low` or behind it and is not empty, and else one from there on, since a difference below
// zero wraps round.
fn fault(low: u32, start: u32, len: u32) -> u32
    requires { (low ≤ 131072) × (start < 65536) × (len < 65536) }
    ensures { is_faultless result ≡ (nat_le low start && nat_lt 0 len) }
{
    start.wrapping_sub(low) | len.wrapping_sub(1)
}

// How far a walk over the records has come: the faults of those behind it, joined by a bitwise or, the lowest address at which the next may
// start, and the bytes that they hold.
#[derive(Drop)]
struct Walk {
    faults: u32,
    low: u32,
    sum: u32,
}

fn walked(w: Walk, r: Record) -> Walk
    requires { Walking w 64 }
    ensures { Walked w r result }
{
    let start = u32::from(r.start);
    let len = u32::from(r.len);
    Walk {
        faults: w.faults | fault(w.low, start, len),
        low: start + len + 1,
        sum: w.sum + len,
    }
}

// Whether each of the n records starts behind the one before it and does not touch it, is not empty and ends where addresses do, and they
// hold no more bytes than a command may. Faults are joined, with no test before the end, since they are rare; and where each record starts
// behind the one before it, the last ends highest.
fn records_hold(words: &[u16], n: usize) -> bool
    requires { (length words.now ≡ command_words) × (n ≡ length (records_in (command_in words.now))) × (n ≤ record_limit) }
    ensures { result ≡ (ascending 0 (records_in (command_in words.now)) && nat_le (total (records_in (command_in words.now))) held_limit) }
{
    let mut w = Walk {
        faults: 0,
        low: 0,
        sum: 0,
    };
    for i in 0..n {
        w = walked(w, entry(words, i));
    }
    if 2147483648 <= w.faults {
        return false;
    }
    if CacheState::WINDOW + 1 < w.low as usize {
        return false;
    }
    w.sum as usize <= CacheState::HELD
}

// Whether all words are zero. They are joined by a bitwise or, with no test before the end, so that many are looked at in one
// instruction. (One line for a width: a function over the width would need a trait with a law of `|`, which is no plainer.)
fn all_zero(words: &[u16]) -> bool
    ensures { result ≡ all_zero words.now }
{
    words.iter().fold(0, |or, word| or | word) == 0
}

// Whether the entries from `from` on are zero.
fn unused_zero(words: &[u16], from: usize) -> bool
    requires { (length words.now ≡ command_words) × (from ≤ record_limit) }
    ensures { result ≡ all is_zero (drop from (entries_in words.now)) }
{
    all_zero(&words[2 * from + 1..])
}

// Whether a command keeps to every rule.
fn command_holds(words: &[u16]) -> bool
    requires { length words.now ≡ command_words }
    ensures { result ≡ command_holds (command_in words.now) }
{
    let word = usize::from(words[0]);
    if word <= 1 {
        return unused_zero(words, 0);
    }
    let count = word - 1;
    if CacheState::RECORDS < count {
        return false;
    }
    if !records_hold(words, count) {
        return false;
    }
    unused_zero(words, count)
}

// Whether every command does.
pub fn holds(state: &[u16; CacheState::WORDS]) -> bool
    ensures { result ≡ holds (state_of state.now) }
{
    for c in 0..CacheState::COMMANDS {
        let low = CacheState::COMMAND_WORDS * c;
        if !command_holds(&state[low..low + CacheState::COMMAND_WORDS]) {
            return false;
        }
    }
    true
}
