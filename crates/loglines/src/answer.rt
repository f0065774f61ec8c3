// What an accepted call replies.
ghost use Rattle.std.specs.Prelude.{◌≡◌};
ghost use Rattle.loglines.specs.declared.answer.Numbers.TheVariants.{Nothing, One, Two, Fetched};

use state::{EndCounts, FetchCounts, OwnWriteCounts};

// What an accepted call replies.
#[derive(Clone, Copy)]
pub enum Numbers {
    Nothing,
    // how many bytes a host write wrote
    One(usize),
    // records and bytes of an end, bytes of an own write and how many of their addresses were not held before
    Two(usize, usize),
    // fresh and replayed bytes of a fetch, and how many records it looked at
    Fetched(FetchCounts),
}

impl From<()> for Numbers {
    ghost from_gives = { λ _ n. n ≡ Nothing };

    fn from(_none: ()) -> Numbers {
        Numbers::Nothing
    }
}

impl From<usize> for Numbers {
    ghost from_gives = { λ count n. n ≡ One count };

    fn from(count: usize) -> Numbers {
        Numbers::One(count)
    }
}

impl From<EndCounts> for Numbers {
    ghost from_gives = { λ counts n. n ≡ Two counts.records counts.bytes };

    fn from(counts: EndCounts) -> Numbers {
        Numbers::Two(counts.records, counts.bytes)
    }
}

impl From<OwnWriteCounts> for Numbers {
    ghost from_gives = { λ counts n. n ≡ Two counts.written counts.fresh };

    fn from(counts: OwnWriteCounts) -> Numbers {
        Numbers::Two(counts.written, counts.fresh)
    }
}

impl From<FetchCounts> for Numbers {
    ghost from_gives = { λ counts n. n ≡ Fetched counts };

    fn from(counts: FetchCounts) -> Numbers {
        Numbers::Fetched(counts)
    }
}
