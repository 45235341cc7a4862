// Runs of edits: the theorem about a whole run stands in specs/. No code: crate `records` runs the records of a job.

#![tactic(auto)]
