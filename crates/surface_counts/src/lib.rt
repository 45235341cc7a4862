// V, E, F and the twisted edges of each part counted, by label.
#![tactic(auto)]

pub mod tally;
