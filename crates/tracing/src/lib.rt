// Tracing over rotation systems: steps, walks, corners, the listing, the faces and their number. No code: the crates `tracing_..` have it.
#![tactic(auto)]

pub mod meeting;
