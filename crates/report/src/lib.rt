// The lines that the job program prints after reading.
#![tactic(auto)]

pub mod line;
pub mod part;
pub mod report;
