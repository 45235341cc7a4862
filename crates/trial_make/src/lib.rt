// A trial job from two numbers, document 02, request f: drawn, and written to a lent slice.
#![tactic(auto)]

pub mod call;
pub mod draws;
pub mod edge;
pub mod job;
