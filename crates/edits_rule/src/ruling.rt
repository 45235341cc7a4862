// What is found of an edit of an edge before it writes.
use edits::rule::Rule;

// The face count before an edit, and the rule that it falls under.
#[derive(Clone, Copy)]
pub struct Ruling {
    pub faces: u32,
    pub rule: Rule,
}
