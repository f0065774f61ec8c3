// The fields of a line of steps: words that stand for numbers, and one that stands for data; what they mean for a kind of step.
#![tactic(auto)]

mod meanings;
mod words;

pub use meanings::meaning_of;

// What is wrong with a field or a line.
#[derive(Clone, Copy, PartialEq, Eq)]
pub enum Fault {
    UnknownLetter,
    FieldMissing,
    NotANumber,
    NotHexadecimal,
    OddDigits,
    FieldTooMany,
    ByteOrderMark,
    // nothing stands behind `=`
    NothingExpected,
    // no step stands before `=`
    NoStep,
}

// A field: the number that it gives or what is wrong with it, and the place behind it.
#[derive(Clone, Copy)]
pub struct Field {
    pub value: Result<usize, Fault>,
    pub next: usize,
}

// The numbers of a step, and how many bytes of data are given with it. Its kind is a number, since the fields of any number have a meaning.
#[derive(Clone, Copy)]
pub struct Step {
    pub kind: usize,
    pub command: usize,
    pub address: usize,
    pub size: usize,
    pub given: usize,
}
