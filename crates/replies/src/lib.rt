// The replies for C: what a call answers as a small struct by value that begins with its status, 0 or the number of a refusal; of a refused
// call the other members are 0.
#![tactic(auto)]

mod calls;
mod frame;
mod status;

pub use calls::{
    Begun, Ended, Fetched, Shown, Walked, Written, begin_reply, end_reply, fetch_reply,
    map_fetch_reply, own_write_reply, show_reply, walk_reply, write_reply,
};
pub use frame::{FrameStep, Framed, frame_reply, read_reply};
