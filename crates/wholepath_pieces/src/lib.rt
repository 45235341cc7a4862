// The pieces of a whole path that one step gives: a piece for each crossing, or one for a flat edge.
#![tactic(auto)]

pub mod piece;
