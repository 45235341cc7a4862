// The whole path of a ribbon: surveyed for its size and its range, then written.
#![tactic(auto)]

pub mod path;
pub mod survey;
