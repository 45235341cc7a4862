// An edit of an edge done if its forecast still holds.
#![tactic(auto)]

pub mod commit;
