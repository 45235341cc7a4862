// What an edit of an edge would do, read on the table as it is, with nothing written.
#![tactic(auto)]

pub mod ask;
