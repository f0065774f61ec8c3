// The log of a run, one line for each frame: the numbers that it tells of an accepted call, and the text of a line, made in a lent buffer.
#![tactic(auto)]

mod answer;
mod line;

pub use answer::Numbers;
pub use line::{put_line, put_too_long};
