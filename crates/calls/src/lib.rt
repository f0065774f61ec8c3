// Begin and end of the fetch cache, a module each, as `cache` defines them. A call takes any words for the state, any buffers and any
// numbers, and answers with what it did or with the refusal of the lowest number that applies.
#![tactic(auto)]

pub mod begin;
pub mod end;
mod judge;
