// Why a call or a frame is turned away: a case for each number of the two lists of document 01, the agreed scope, and of 02, the agreed
// changes (docs/RULES.md has the rules of both).
ghost use Rattle.std.specs.Prelude.{◌≡◌};
ghost use Rattle.state.specs.Refusals.{number};

#[derive(Clone, Copy)]
pub enum Refusal {
    // because of the input
    FrameTooShort = 1,
    UnknownKind = 2,
    FieldNotZero = 3,
    LengthTooLong = 4,
    DataMismatch = 5,
    CommandTooHigh = 6,
    WindowTooLong = 7,
    StoreWrongSize = 8,
    OutsideWindow = 9,
    BufferTooShort = 10,
    AddressTooHigh = 11,
    // because of the state
    StateBroken = 20,
    CommandNotOpen = 21,
    CommandAlreadyOpen = 22,
    TooManyBytes = 23,
    TooManyRecords = 24,
    NoSuchRecord = 25,
    // by the byte map alone, because of the input
    WindowBeyondMap = 30,
    // by the page walk alone, because of the input and of what its lists hold
    TransferOutOfRange = 31,
    EntryMisaligned = 32,
}

impl Refusal {
    pub fn number(self) -> u8
        ensures { result ≡ number self }
    {
        self as u8
    }
}
