// What an edit of an edge would do, asked before it is done; and the edit done only if that still holds. No code: the crates `forecasts_..`
// have it.
#![tactic(auto)]

pub mod forecast;
