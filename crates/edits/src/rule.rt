// The rule that an edit of an edge falls under, and what an edit answers with it.

// Document 02, request a: two faces become one, one becomes two, one stays one; a turn by an even amount.
#[derive(Clone, Copy)]
pub enum Rule {
    A,
    B1,
    B2,
    E,
}

// A host gets a rule's number above the 16 bits of a face count.
pub const RULE_PLACE: u64 = 65536;

// What an accepted edit answers: the new face count, and for an edge the rule met.
#[derive(Clone, Copy)]
pub struct Reply {
    pub faces: u32,
    pub rule: Option<Rule>,
}
