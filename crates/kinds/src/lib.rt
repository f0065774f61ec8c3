// The kinds of steps, and what the table says of each: its letter, which fields must be zero, and whether data follow.
#![tactic(auto)]

ghost use Rattle.std.specs.Prelude.{◌≡◌, false, MatchOption};
ghost use Rattle.kinds.specs.Table.{is_kind, kind_of, number};

// A kind's number is its place in the table.
#[derive(Clone, Copy, PartialEq, Eq)]
pub enum Kind {
    Begin = 0,
    Fetch = 1,
    End = 2,
    HostWrite = 3,
    OwnWrite = 4,
}

// The table, a constant for each of its columns, indexed by kind.
const LETTER: [u8; 5] = [b'B', b'F', b'E', b'H', b'W'];

const COMMAND_ZERO: [bool; 5] = [false, false, false, true, false];

const SPAN_ZERO: [bool; 5] = [true, false, true, false, false];

const HAS_DATA: [bool; 5] = [false, false, false, true, true];

impl Kind {
    // In the order of the table.
    pub const ALL: [Kind; 5] = [
        Kind::Begin,
        Kind::Fetch,
        Kind::End,
        Kind::HostWrite,
        Kind::OwnWrite,
    ];

    // The kind with a number, if the table allows it.
    pub fn of(place: usize) -> Option<Kind>
        ensures { MatchOption result (is_kind place ≡ false) (λ kind. number kind ≡ place) }
    {
        match place {
            0 => Some(Kind::Begin),
            1 => Some(Kind::Fetch),
            2 => Some(Kind::End),
            3 => Some(Kind::HostWrite),
            4 => Some(Kind::OwnWrite),
            _ => None,
        }
    }

    pub fn number(self) -> usize
        ensures { result ≡ number self }
    {
        self as usize
    }

    pub fn letter(self) -> u8
        ensures { result ≡ (kind_of (number self)).letter }
    {
        LETTER[self.number()]
    }

    // Must the command be zero?
    pub fn command_zero(self) -> bool
        ensures { result ≡ (kind_of (number self)).command_zero }
    {
        COMMAND_ZERO[self.number()]
    }

    // Must the address and the length be zero?
    pub fn span_zero(self) -> bool
        ensures { result ≡ (kind_of (number self)).span_zero }
    {
        SPAN_ZERO[self.number()]
    }

    pub fn has_data(self) -> bool
        ensures { result ≡ (kind_of (number self)).has_data }
    {
        HAS_DATA[self.number()]
    }
}

// The letter of the kind with a number, and 0 where there is none. This and the next four answer for any number, as the definitions do.
pub fn letter(kind: usize) -> u8
    ensures { result ≡ (kind_of kind).letter }
{
    Kind::of(kind).map_or(0, Kind::letter)
}

// Has the kind a row?
pub fn allowed(kind: usize) -> bool
    ensures { result ≡ is_kind kind }
{
    Kind::of(kind).is_some()
}

pub fn command_zero(kind: usize) -> bool
    ensures { result ≡ (kind_of kind).command_zero }
{
    Kind::of(kind).is_some_and(Kind::command_zero)
}

pub fn span_zero(kind: usize) -> bool
    ensures { result ≡ (kind_of kind).span_zero }
{
    Kind::of(kind).is_some_and(Kind::span_zero)
}

pub fn has_data(kind: usize) -> bool
    ensures { result ≡ (kind_of kind).has_data }
{
    Kind::of(kind).is_some_and(Kind::has_data)
}
