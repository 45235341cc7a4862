// The price sheet: every ribbon measured, its row written, and the call for it.
#![tactic(auto)]

pub mod call;
pub mod quote;
pub mod ribbons;
pub mod rows;
