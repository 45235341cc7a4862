// The writes of an edit: a dart put into a corner, a dart taken out.
#![tactic(auto)]

pub mod splice;
