// The state of the fetch cache: which commands are open, and which host bytes each of them holds. Definitions in specs/ say what the
// words of a state stand for, and laws in proofs/ say what its records do. The code that reads and changes the words is in `words`,
// `integrity` and `join`.
#![tactic(auto)]

ghost use Rattle.std.specs.Prelude.{◌≡◌};
ghost use Rattle.state.specs.Limits.{limits};
ghost use Rattle.state.specs.State.{fresh_state};
ghost use Rattle.state.specs.Words.{state_of};

mod answer;
pub mod range;
mod refusal;

pub use answer::{EndCounts, FetchCounts, MapFetchCounts, OwnWriteCounts, WalkCounts};
pub use refusal::Refusal;

// A run of held addresses. An address is below 65,536 and a record holds at most 4,096 bytes, so 16 bits serve for both.
#[derive(Clone, Copy)]
pub struct Record {
    pub start: u16,
    pub len: u16,
}

// How a span lies among the records of a command. It meets those from `first` up to `last`, which together with the span
// reach from `low` up to `high`. The records before them hold `below` bytes, and those that are met hold `held`.
#[derive(Clone, Copy)]
pub struct Meeting {
    pub first: usize,
    pub last: usize,
    pub low: usize,
    pub high: usize,
    pub below: usize,
    pub held: usize,
}

// Document 01 (the agreed scope; docs/RULES.md has its rules) calls it the book.
// Of each command there are 129 words: 0 if it is closed, and else one more than the number of its
// records; then the start and the length of each of its 64 entries.
// A state, its store and the buffers of a call are lent each for itself, and the numbers of a span are handed on one by one: so C has them.
#[derive(Drop)]
pub struct CacheState {
    pub words: [u16; CacheState::WORDS],
}

// The limits of the device, side by side, and how many words a command and a state have.
#[derive(Clone, Copy)]
pub struct Limits {
    pub commands: usize,
    pub records: usize,
    pub held: usize,
    pub transfer: usize,
    pub window: usize,
    pub store: usize,
    pub command_words: usize,
    pub words: usize,
}

impl CacheState {
    pub const COMMANDS: usize = 8;
    // The most records of a command.
    pub const RECORDS: usize = 64;
    // The most distinct bytes that a command holds.
    pub const HELD: usize = 4096;
    // The most bytes of one fetch or write.
    pub const TRANSFER: usize = 4096;
    // The longest window.
    pub const WINDOW: usize = 65536;
    // The one length of the store.
    pub const STORE: usize = 32768;
    // The words of a command, and of a state.
    pub const COMMAND_WORDS: usize = 1 + 2 * CacheState::RECORDS;

    pub const WORDS: usize = CacheState::COMMANDS * CacheState::COMMAND_WORDS;

    // The constants are those of the definitions.
    pub fn limits() -> Limits
        ensures { result ≡ limits }
    {
        Limits {
            commands: CacheState::COMMANDS,
            records: CacheState::RECORDS,
            held: CacheState::HELD,
            transfer: CacheState::TRANSFER,
            window: CacheState::WINDOW,
            store: CacheState::STORE,
            command_words: CacheState::COMMAND_WORDS,
            words: CacheState::WORDS,
        }
    }

    // Every command is closed and holds nothing: all words are zero.
    pub fn fresh() -> CacheState
        ensures { state_of result.words ≡ fresh_state }
    {
        CacheState {
            words: [0; CacheState::WORDS],
        }
    }
}
