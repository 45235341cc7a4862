// The rule that an edit of an edge falls under, read on the table before the write; and an edit's reply as C gets it.
#![tactic(auto)]

pub mod deletion;
pub mod insertion;
pub mod reply;
pub mod ruling;
pub mod turning;
