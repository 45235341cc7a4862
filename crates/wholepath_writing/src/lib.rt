// The pieces of a whole path, written to three lent slices.
#![tactic(auto)]

pub mod writing;
