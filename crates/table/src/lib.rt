// The words of a table: its layout, what a good table is, the empty mesh, and the refusals. Crate `check_table` has the check.
#![tactic(auto)]

pub mod answer;
pub mod block;
pub mod empty;
pub mod layout;
pub mod read;
