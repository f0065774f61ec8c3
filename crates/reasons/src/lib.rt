// The reason of a refusal in words, as the programs tell it; the numbers stand in `state`.
#![tactic(auto)]

mod putting;
mod reason;

pub use putting::put_reason;
