// The words of a state, read where they stand, and a command reset in them. A state is lent as its 1,032 words, and a command as its 129;
// a part of a lent array is a slice, so that each function asks for the length that the array's type gave.
#![tactic(auto)]

pub mod command;
pub mod entries;
