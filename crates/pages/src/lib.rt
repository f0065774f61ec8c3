// The entries of a list page, read and judged, and the spans of a walk put into its two lists.
#![tactic(auto)]

pub mod entries;
pub mod spans;
