// The store: how the bytes that a command holds are kept in its part, packed by ascending address.
#![tactic(auto)]

mod hold;
pub mod part;
