// The float path of a ribbon: surveyed for its range, then written piece by piece.
#![tactic(auto)]

pub mod path;
pub mod range;
pub mod survey;
pub mod writing;
