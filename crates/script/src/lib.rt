// A file of steps: all its lines are judged, and each that has no frame is reported on standard error.
#![tactic(auto)]

mod judging;
mod lines;

pub use judging::{FRAME, Judged, MOST, TooLong, judge, room};
pub use lines::Lines;
