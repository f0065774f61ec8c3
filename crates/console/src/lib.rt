// What the programs share: their argument, an input read whole, and what is said on standard error.
#![tactic(auto)]

mod asking;
mod input;
mod naming;
mod saying;

pub use asking::{Asked, arguments, is};
pub use input::{Unread, read_whole};
pub use saying::{NOTE, Streams, say, say_if_text, say_text, tell, tell_if, within};
