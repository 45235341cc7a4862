// The faces traced once: how many there are, and of each corner its face and its type.
#![tactic(auto)]

pub mod tags;
