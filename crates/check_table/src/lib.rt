// The check of a table: one pass over its lengths, then one over its darts and one over its vertices, these two by blocks of names.
// Each word is read by `table::read::read`, and `reads` keeps count of them; the check that keeps no count is the same code with `Uncounted` for it.
#![tactic(auto)]

pub mod block;
pub mod dart;
pub mod length;
pub mod vertex;
pub mod whole;
