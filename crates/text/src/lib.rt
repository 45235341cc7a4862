// Text in a byte slice: words and numbers, written through a window of any length.
#![tactic(auto)]

pub mod number;
pub mod window;
