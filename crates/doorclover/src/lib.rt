// What firmware links: every call as a function for C, thin over the proved ones, with its reply as the crate replies gives it from what
// the call says. A journal has no status, since every journal is run.
#![tactic(auto)]

mod frame;
mod map;
mod page_walk;
mod records;
mod release;
mod run;

pub use frame::{doorclover_frame_read, doorclover_frame_write};
pub use map::{
    doorclover_map_begin, doorclover_map_end, doorclover_map_fetch, doorclover_map_fresh,
    doorclover_map_own_write,
};
pub use page_walk::doorclover_walk;
pub use records::{
    doorclover_begin, doorclover_end, doorclover_fetch, doorclover_fresh, doorclover_host_write,
    doorclover_own_write, doorclover_show,
};
pub use release::doorclover_release;
pub use run::{Replayed, doorclover_journal_replay};
