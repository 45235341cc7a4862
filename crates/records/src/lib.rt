// Job records: decoded, and run over a table, with a line for each that is declined.
#![tactic(auto)]

pub mod block;
pub mod lines;
pub mod records;
pub mod run;
