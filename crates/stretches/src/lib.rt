// The values of a byte map, stretch after stretch: addresses one behind the other, within a word of its bits, that are all held or all not. A
// fetch takes what is not held from the window, and a map is clean if what is not held is zero.
#![tactic(auto)]

pub mod clean;
mod stretch;
pub mod take;
