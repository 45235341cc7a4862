// What an edit answers, with its rule and as C gets it.
ghost use Rattle.std.specs.Prelude.{◌≡◌, ◌≤◌, None, Some};
ghost use Rattle.tracing.proofs.laws.Place.{places};
ghost use Rattle.edits_rule.specs.laws.Rule.{Allowed};
ghost use Rattle.edits.specs.Rules.{number_met, faces_after, with_rule, rule_number, reply_code};

use crate::ruling::Ruling;
use edits::rule::{RULE_PLACE, Reply, Rule};
use table::answer::{Refusal, refusal_code};

// The answer of an edit that meets no rule.
pub fn without_rule(a: Result<u32, Refusal>) -> Result<Reply, Refusal>
    ensures { result ≡ with_rule a None }
{
    let faces = a?;
    Ok(Reply { faces, rule: None })
}

// The face count after an edit that met a rule, as the rule says that it becomes.
pub fn faces_after(ruling: Ruling) -> u32
    requires { (ruling.faces ≤ places) × Allowed ruling.faces ruling.rule }
    ensures { result ≡ faces_after ruling.faces ruling.rule }
{
    let faces = ruling.faces;
    match ruling.rule {
        Rule::A => faces - 1,
        Rule::B1 => faces + 1,
        Rule::B2 | Rule::E => faces,
    }
}

// The answer of an edit that met a rule.
pub fn by_rule(ruling: Ruling) -> Reply
    requires { (ruling.faces ≤ places) × Allowed ruling.faces ruling.rule }
    ensures { result ≡ record { faces = faces_after ruling.faces ruling.rule; rule = Some ruling.rule } }
{
    Reply {
        faces: faces_after(ruling),
        rule: Some(ruling.rule),
    }
}

// A rule's number.
pub fn rule_number(r: Rule) -> u64
    ensures { result ≡ rule_number r }
{
    match r {
        Rule::A => 1,
        Rule::B1 => 2,
        Rule::B2 => 3,
        Rule::E => 4,
    }
}

// The number of the rule met, 0 for none.
fn number_met(rule: Option<Rule>) -> u64
    ensures { result ≡ number_met rule }
{
    match rule {
        Some(r) => rule_number(r),
        None => 0,
    }
}

// The reply as C gets it: the face count, with the rule's number above its 16 bits, or the refusal's code.
pub fn reply_code(reply: Result<Reply, Refusal>) -> i64
    ensures { result ≡ reply_code reply }
{
    match reply {
        Ok(answer) => (answer.faces as u64 + RULE_PLACE * number_met(answer.rule)) as i64,
        Err(r) => refusal_code(r),
    }
}
