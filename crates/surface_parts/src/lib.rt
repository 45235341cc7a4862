// The connected parts of a table found: for each vertex the label of its part, and a mark.
#![tactic(auto)]

pub mod forest;
