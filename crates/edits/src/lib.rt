// The five edits over tables: the verdict, the table that is written, the change of the face count, the rule. No code: the crates `edits_..` have it.
#![tactic(auto)]

pub mod edit;
pub mod rule;
