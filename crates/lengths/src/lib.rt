// The cut length of a ribbon.
#![tactic(auto)]

pub mod length;
