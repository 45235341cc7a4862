// What a program reads in the bytes of its arguments.
#![tactic(auto)]

pub mod number;
