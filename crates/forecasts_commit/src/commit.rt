// Committing to a forecast: ask again, and do the edit if the three answers are the same.
ghost use Rattle.std.specs.Prelude.{◌≡◌};
ghost use Rattle.edits.specs.declared.edit.Edit.TheVariants.{InsertEdge, DeleteEdge, TurnEdge};
ghost use Rattle.forecasts.specs.Forecast.{commit_reply, committed};
ghost use Rattle.forecasts_commit.specs.laws.Commit.{told_reply};

use edits::rule::{Reply, Rule};
use edits_do::edge::{delete, insert};
use edits_verdict::turns::turned_word;
use forecasts::forecast::Forecast;
use forecasts_ask::ask::{ask_delete_edge, ask_insert_edge, ask_turn_edge};
use forecasts_number::compare::commit_verdict;
use table::answer::Refusal;
use table::layout::{EDGE, UNTURNED};

// What the plain edit answers where its forecast is this one.
fn told(f: Forecast) -> Reply
    ensures { result ≡ told_reply f }
{
    let rule = match f.rule {
        1 => Rule::A,
        2 => Rule::B1,
        3 => Rule::B2,
        _ => Rule::E,
    };
    Reply {
        faces: f.after,
        rule: Some(rule),
    }
}

// Inserts edge e if the forecast holds.
pub fn commit_insert_edge(
    t: &mut [u16],
    e: u16,
    c1: u16,
    c2: u16,
    k: i16,
    length: u16,
    forecast: Forecast,
) -> Result<Reply, Refusal>
    ensures { (result ≡ commit_reply t.old (InsertEdge e c1 c2 k length) forecast)
        × (t.new ≡ committed t.old (InsertEdge e c1 c2 k length) forecast) }
{
    commit_verdict(forecast, ask_insert_edge(t, e, c1, c2, k, length))?;
    let w = turned_word(UNTURNED, k);
    insert(t, e as usize, c1 as usize, c2 as usize, w, length);
    Ok(told(forecast))
}

// Deletes edge e if the forecast holds.
pub fn commit_delete_edge(t: &mut [u16], e: u16, forecast: Forecast) -> Result<Reply, Refusal>
    ensures { (result ≡ commit_reply t.old (DeleteEdge e) forecast) × (t.new ≡ committed t.old (DeleteEdge e) forecast) }
{
    commit_verdict(forecast, ask_delete_edge(t, e))?;
    delete(t, e as usize);
    Ok(told(forecast))
}

// Turns edge e by an amount if the forecast holds.
pub fn commit_turn_edge(
    t: &mut [u16],
    e: u16,
    amount: i16,
    forecast: Forecast,
) -> Result<Reply, Refusal>
    ensures { (result ≡ commit_reply t.old (TurnEdge e amount) forecast)
        × (t.new ≡ committed t.old (TurnEdge e amount) forecast) }
{
    commit_verdict(forecast, ask_turn_edge(t, e, amount))?;
    t[EDGE + e as usize] = turned_word(t[EDGE + e as usize], amount);
    Ok(told(forecast))
}
