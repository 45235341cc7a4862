// Where one crossing sits, in whole sixteenths.
#![tactic(auto)]

pub mod between;
