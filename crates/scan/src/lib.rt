// Text that is read: places with a byte of a class, words, and the numbers and bytes that words stand for.
#![tactic(auto)]

mod classes;
mod places;
mod values;

pub use places::{has_word, starts, until};
pub use values::{decode, value};

// Where a scan of a text stops: at a byte of this class. A closure that tests a byte would be no plainer: the definitions compute with the
// class.
#[derive(Clone, Copy)]
pub enum Stop {
    LineEnd,
    Comment,
    Equals,
    // a byte that is no blank, with which a word begins
    Word,
    Blank,
    NotDecimal,
    NotHex,
}
