// Words of bits: one bit for each address of a byte map, 64 in a word. No function goes bit by bit.
#![tactic(auto)]

mod count;
mod each;
mod fill;
mod walk;

// How many addresses a map has.
pub const ADDRESSES: usize = 4096;

// How many words of 64 bits they take.
pub const WORDS: usize = 64;

pub use count::{count_span, ones};
pub use fill::{all_zero, set_span};
pub use walk::{runs, runs_with};
