// Which ribbons alternate, and whether the weave is plain.
#![tactic(auto)]

pub mod call;
pub mod hands;
pub mod plain;
