// A span is joined into the records of a command, in its words where they stand: the search for the records that it meets, and the union
// in their place.
#![tactic(auto)]

pub mod search;
pub mod splice;
