// The walk reader, which brings its tally forward by each step that it hands out.
#![tactic(auto)]

pub mod place;
pub mod reader;
pub mod standing;
pub mod walk;
