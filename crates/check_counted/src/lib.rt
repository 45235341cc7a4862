// The check of a table, counting the words that it reads.
#![tactic(auto)]

pub mod whole;
