// The replies of the calls.
ghost use Rattle.std.specs.Prelude.{◌≡◌};
ghost use Rattle.state.specs.Answers.{begin_reply, end_reply, fetch_reply, map_fetch_reply, host_write_reply, own_write_reply, show_reply, walk_reply};
ghost use Rattle.replies.specs.Replies.{begun_of, ended_of, fetched_of, written_of, shown_of, walked_of};

use crate::status::{OK, status};
use state::{EndCounts, FetchCounts, MapFetchCounts, OwnWriteCounts, Record, Refusal, WalkCounts};

#[repr(C)]
#[derive(Drop)]
pub struct Begun {
    pub status: u32,
}

// How many records and distinct bytes the command had.
#[repr(C)]
#[derive(Drop)]
pub struct Ended {
    pub status: u32,
    pub records: usize,
    pub bytes: usize,
}

// How many bytes of the span were fresh, how many were replayed, and how many records were looked at, of which a byte map has none.
#[repr(C)]
#[derive(Drop)]
pub struct Fetched {
    pub status: u32,
    pub fresh: usize,
    pub replayed: usize,
    pub looked_at: usize,
}

// How many bytes were written; and, of an own write, how many of their addresses were not held before.
#[repr(C)]
#[derive(Drop)]
pub struct Written {
    pub status: u32,
    pub bytes: usize,
    pub fresh: usize,
}

// A record.
#[repr(C)]
#[derive(Drop)]
pub struct Shown {
    pub status: u32,
    pub start: u16,
    pub len: u16,
}

// How many spans a page walk gave, and how many records its list fetches looked at.
#[repr(C)]
#[derive(Drop)]
pub struct Walked {
    pub status: u32,
    pub spans: usize,
    pub looked_at: usize,
}

pub fn begin_reply(answer: Result<(), Refusal>) -> Begun
    ensures { result ≡ begun_of (begin_reply answer) }
{
    match answer {
        Ok(()) => Begun { status: OK },
        Err(why) => Begun {
            status: status(why),
        },
    }
}

pub fn end_reply(answer: Result<EndCounts, Refusal>) -> Ended
    ensures { result ≡ ended_of (end_reply answer) }
{
    match answer {
        Ok(EndCounts { records, bytes }) => Ended {
            status: OK,
            records,
            bytes,
        },
        Err(why) => Ended {
            status: status(why),
            records: 0,
            bytes: 0,
        },
    }
}

pub fn fetch_reply(answer: Result<FetchCounts, Refusal>) -> Fetched
    ensures { result ≡ fetched_of (fetch_reply answer) }
{
    match answer {
        Ok(counts) => Fetched {
            status: OK,
            fresh: counts.fresh,
            replayed: counts.replayed,
            looked_at: counts.looked,
        },
        Err(why) => Fetched {
            status: status(why),
            fresh: 0,
            replayed: 0,
            looked_at: 0,
        },
    }
}

pub fn map_fetch_reply(answer: Result<MapFetchCounts, Refusal>) -> Fetched
    ensures { result ≡ fetched_of (map_fetch_reply answer) }
{
    fetch_reply(answer.map(|MapFetchCounts { fresh, replayed }| FetchCounts {
        fresh,
        replayed,
        looked: 0,
    }))
}

pub fn write_reply(answer: Result<usize, Refusal>) -> Written
    ensures { result ≡ written_of (host_write_reply answer) }
{
    own_write_reply(answer.map(|written| OwnWriteCounts { written, fresh: 0 }))
}

pub fn own_write_reply(answer: Result<OwnWriteCounts, Refusal>) -> Written
    ensures { result ≡ written_of (own_write_reply answer) }
{
    match answer {
        Ok(OwnWriteCounts { written, fresh }) => Written {
            status: OK,
            bytes: written,
            fresh,
        },
        Err(why) => Written {
            status: status(why),
            bytes: 0,
            fresh: 0,
        },
    }
}

pub fn show_reply(answer: Result<Record, Refusal>) -> Shown
    ensures { result ≡ shown_of (show_reply answer) }
{
    match answer {
        Ok(Record { start, len }) => Shown {
            status: OK,
            start,
            len,
        },
        Err(why) => Shown {
            status: status(why),
            start: 0,
            len: 0,
        },
    }
}

pub fn walk_reply(answer: Result<WalkCounts, Refusal>) -> Walked
    ensures { result ≡ walked_of (walk_reply answer) }
{
    match answer {
        Ok(WalkCounts { spans, looked }) => Walked {
            status: OK,
            spans,
            looked_at: looked,
        },
        Err(why) => Walked {
            status: status(why),
            spans: 0,
            looked_at: 0,
        },
    }
}
