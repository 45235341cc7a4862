// Asking what an edit of an edge would do: its verdict, the face count and the rule by one trace, and the face count after it by the rule.
ghost use Rattle.std.specs.Prelude.{◌≡◌, ◌≤◌, Ok};
ghost use Rattle.edits.specs.declared.edit.Edit.TheVariants.{InsertEdge, DeleteEdge, TurnEdge};
ghost use Rattle.forecasts.specs.Forecast.{ask};
ghost use Rattle.forecasts_ask.specs.laws.Ask.{foretold_by};
ghost use Rattle.edits_rule.specs.laws.Rule.{Allowed};
ghost use Rattle.tracing.proofs.laws.Place.{places};

use edits_rule::deletion::delete_rule;
use edits_rule::insertion::insert_rule;
use edits_rule::reply::{faces_after, rule_number};
use edits_rule::ruling::Ruling;
use edits_rule::turning::turn_rule;
use edits_verdict::turns::turned_word;
use edits_verdict::verdict::{delete_verdict, insert_verdict, turn_verdict};
use forecasts::forecast::Forecast;
use table::answer::Refusal;
use table::layout::{EDGE, UNTURNED};

// What ask answers of an edit that passes: its rule, and the face count before and after it.
fn foretell(ruling: Ruling) -> Forecast
    requires { (ruling.faces ≤ places) × Allowed ruling.faces ruling.rule }
    ensures { result ≡ foretold_by ruling.faces ruling.rule }
{
    Forecast {
        before: ruling.faces,
        after: faces_after(ruling),
        rule: rule_number(ruling.rule) as u32,
    }
}

// What inserting edge e with turns k and a length, dart 2e into corner c1 and 2e+1 into c2, would do.
pub fn ask_insert_edge(
    t: &[u16],
    e: u16,
    c1: u16,
    c2: u16,
    k: i16,
    length: u16,
) -> Result<Forecast, Refusal>
    ensures { result ≡ ask t.now (InsertEdge e c1 c2 k length) }
{
    insert_verdict(t, e, c1, c2, k, length)?;
    let w = turned_word(UNTURNED, k);
    Ok(foretell(insert_rule(t, c1, c2, w)))
}

// What deleting edge e would do.
pub fn ask_delete_edge(t: &[u16], e: u16) -> Result<Forecast, Refusal>
    ensures { result ≡ ask t.now (DeleteEdge e) }
{
    delete_verdict(t, e)?;
    Ok(foretell(delete_rule(t, e as usize)))
}

// What turning edge e by an amount would do.
pub fn ask_turn_edge(t: &[u16], e: u16, amount: i16) -> Result<Forecast, Refusal>
    ensures { result ≡ ask t.now (TurnEdge e amount) }
{
    turn_verdict(t, e, amount)?;
    let w = turned_word(t[EDGE + e as usize], amount);
    Ok(foretell(turn_rule(t, e as usize, w)))
}
