// An edit that is data, done.
ghost use Rattle.std.specs.Prelude.{◌≡◌};
ghost use Rattle.edits.specs.Edits.{edited};
ghost use Rattle.edits.specs.Rules.{reply};

use crate::edge::{delete_edge, insert_edge, turn_edge};
use crate::vertex::{add_vertex, remove_vertex};
use edits::edit::Edit;
use edits::rule::Reply;
use edits_rule::reply::without_rule;
use table::answer::Refusal;

// Does the edit, or declines it. Answers the new face count, and for an edge the rule met.
pub fn apply(t: &mut [u16], edit: Edit) -> Result<Reply, Refusal>
    ensures { (result ≡ reply t.old edit) × (t.new ≡ edited t.old edit) }
{
    match edit {
        Edit::AddVertex(v) => without_rule(add_vertex(t, v)),
        Edit::RemoveVertex(v) => without_rule(remove_vertex(t, v)),
        Edit::InsertEdge {
            edge,
            first,
            second,
            turns,
            length,
        } => insert_edge(t, edge, first, second, turns, length),
        Edit::DeleteEdge(e) => delete_edge(t, e),
        Edit::TurnEdge { edge, amount } => turn_edge(t, edge, amount),
    }
}
