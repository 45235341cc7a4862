// The lines of the walks that the job program prints, and the fields of a line.
#![tactic(auto)]

pub mod field;
pub mod step;
pub mod walk;
