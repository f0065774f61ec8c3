// The half of fetch and of own write that reads and judges: the checks that need no search of the records, and then what a span would bring.
#![tactic(auto)]

pub mod admit;
pub mod plan;
