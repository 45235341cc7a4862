// Edits written as job records.
#![tactic(auto)]

pub mod marked;
pub mod record;
