// The mesh and its parts measured: counts, rows, and the calls for them.
#![tactic(auto)]

pub mod call;
pub mod mesh;
pub mod rows;
