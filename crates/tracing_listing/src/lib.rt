// The listing of all walks, and the call for it.
#![tactic(auto)]

pub mod call;
pub mod listing;
