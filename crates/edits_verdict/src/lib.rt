// The verdict on each edit, over the lent table, and turns as edge words.
#![tactic(auto)]

pub mod turns;
pub mod verdict;
