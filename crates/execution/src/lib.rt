// A step is made as its call, and a frame is carried out, as `device` defines it.
#![tactic(auto)]

mod frame;
mod step;

pub use frame::carry_out;
