// The three answers of ask.

// The face count before the edit and after it, and the number of the rule that it falls under: a number and not a Rule, since C hands back any.
#[derive(Clone, Copy, PartialEq, Eq)]
pub struct Forecast {
    pub before: u32,
    pub after: u32,
    pub rule: u32,
}
