// The records that meet a span, found by one search from the lowest start upward, which counts the records that it looks at.
ghost use Rattle.std.specs.Prelude.{◌≡◌, length};
ghost use Rattle.state.specs.Limits.{command_words};
ghost use Rattle.state.specs.State.{records_in};
ghost use Rattle.join.specs.Bounds.{Counted, Passed};
ghost use Rattle.join.specs.Search.{Searches};
ghost use Rattle.state.specs.Words.{command_in};

use state::{Meeting, Record};
use words::entries::{entry, used};

// How the span lies among the records, and how many of them were looked at.
#[derive(Drop)]
pub struct Searched {
    pub met: Meeting,
    pub looked: usize,
}

// The search goes on past a record that starts at or before the span's end: it lies before the span, or meets it.
fn pass(m: Meeting, r: Record, address: usize) -> Meeting
    requires { Counted m 63 }
    ensures { Passed m r address result }
{
    let start = usize::from(r.start);
    let len = usize::from(r.len);
    let past = start + len;
    if past < address {
        return Meeting {
            first: m.first + 1,
            last: m.last + 1,
            low: m.low,
            high: m.high,
            below: m.below + len,
            held: m.held,
        };
    }
    Meeting {
        first: m.first,
        last: m.last + 1,
        low: start.min(m.low),
        high: past.max(m.high),
        below: m.below,
        held: m.held + len,
    }
}

// The search for the span from `address` up to `end`. It ends with the first record that starts above the span's end.
pub fn search(words: &[u16], address: usize, end: usize) -> Searched
    requires { length words.now ≡ command_words }
    ensures { Searches (records_in (command_in words.now)) address end result }
{
    let n = used(words);
    let mut m = Meeting {
        first: 0,
        last: 0,
        low: address,
        high: end,
        below: 0,
        held: 0,
    };
    for i in 0..n {
        let r = entry(words, i);
        if end < usize::from(r.start) {
            return Searched {
                met: m,
                looked: i + 1,
            };
        }
        m = pass(m, r, address);
    }
    Searched { met: m, looked: n }
}
