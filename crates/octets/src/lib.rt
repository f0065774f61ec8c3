// Byte buffers as lists: definitions in specs/, the laws on lists that the toolchain lacks in proofs/.
// The functions copy and move bytes in a buffer, and put text into one. Each takes every input: what does not fit is left out.
#![tactic(auto)]

mod copy;
mod shift;
mod text;

pub use copy::{copy_at, copy_front};
pub use shift::move_up;
pub use text::put;
