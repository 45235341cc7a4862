// The tally of a walk, brought forward by one step.
#![tactic(auto)]

pub mod tally;
