// The step that a call names; the letters of one step, and of a whole ribbon.
#![tactic(auto)]

pub mod call;
pub mod letter;
pub mod named;
pub mod ribbon;
