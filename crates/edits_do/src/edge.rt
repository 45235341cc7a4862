// Inserting, deleting and turning an edge.
ghost use Rattle.std.specs.Prelude.{◌≡◌, ◌*◌, ◌+◌, ◌<◌};
ghost use Rattle.edits.specs.Edge.{first_corner, inserted, deleted};
ghost use Rattle.edits.specs.Edits.{edited};
ghost use Rattle.edits.specs.Rules.{reply};
ghost use Rattle.edits.specs.declared.edit.Edit.TheVariants.{InsertEdge, DeleteEdge, TurnEdge};
ghost use Rattle.edits.proofs.laws.Ready.{InsertReady, DeleteReady};
ghost use Rattle.table.specs.Layout.{edges};

use edits::rule::Reply;
use edits_rule::deletion::delete_rule;
use edits_rule::insertion::insert_rule;
use edits_rule::reply::by_rule;
use edits_rule::turning::turn_rule;
use edits_verdict::turns::turned_word;
use edits_verdict::verdict::{delete_verdict, insert_verdict, turn_verdict};
use edits_write::splice::{link, unlink};
use table::answer::Refusal;
use table::layout::{EDGE, LENGTH, UNTURNED};

// Puts edge e, of word w and a length, between corners c1 and c2. The second dart goes first, so that with one corner for both the first stands before it.
pub fn insert(t: &mut [u16], e: usize, c1: usize, c2: usize, w: u16, length: u16)
    requires { InsertReady t.old e c1 c2 }
    ensures { t.new ≡ inserted t.old e c1 c2 w length }
{
    link(t, 2 * e + 1, c2);
    let c = first_corner(e, c1, c2);
    link(t, 2 * e, c);
    t[EDGE + e] = w;
    t[LENGTH + e] = length;
}

// The corner of the first dart, once the second is in.
fn first_corner(e: usize, c1: usize, c2: usize) -> usize
    requires { e < edges }
    ensures { result ≡ first_corner e c1 c2 }
{
    if c1 == c2 {
        return 2 * e + 1;
    }
    c1
}

// Inserts edge e with turns k and a length: dart 2e into corner c1, 2e+1 into c2. Answers the new face count and the rule met.
pub fn insert_edge(
    t: &mut [u16],
    e: u16,
    c1: u16,
    c2: u16,
    k: i16,
    length: u16,
) -> Result<Reply, Refusal>
    ensures { (result ≡ reply t.old (InsertEdge e c1 c2 k length)) × (t.new ≡ edited t.old (InsertEdge e c1 c2 k length)) }
{
    insert_verdict(t, e, c1, c2, k, length)?;
    let w = turned_word(UNTURNED, k);
    let ruling = insert_rule(t, c1, c2, w);
    insert(t, e as usize, c1 as usize, c2 as usize, w, length);
    Ok(by_rule(ruling))
}

// Takes edge e out.
pub fn delete(t: &mut [u16], e: usize)
    requires { DeleteReady t.old e }
    ensures { t.new ≡ deleted t.old e }
{
    unlink(t, 2 * e);
    unlink(t, 2 * e + 1);
    t[EDGE + e] = 0;
    t[LENGTH + e] = 0;
}

// Deletes edge e. Answers the new face count and the rule met.
pub fn delete_edge(t: &mut [u16], e: u16) -> Result<Reply, Refusal>
    ensures { (result ≡ reply t.old (DeleteEdge e)) × (t.new ≡ edited t.old (DeleteEdge e)) }
{
    delete_verdict(t, e)?;
    let ruling = delete_rule(t, e as usize);
    delete(t, e as usize);
    Ok(by_rule(ruling))
}

// Turns edge e by an amount. Answers the new face count and the rule met.
pub fn turn_edge(t: &mut [u16], e: u16, amount: i16) -> Result<Reply, Refusal>
    ensures { (result ≡ reply t.old (TurnEdge e amount)) × (t.new ≡ edited t.old (TurnEdge e amount)) }
{
    turn_verdict(t, e, amount)?;
    let w = turned_word(t[EDGE + e as usize], amount);
    let ruling = turn_rule(t, e as usize, w);
    t[EDGE + e as usize] = w;
    Ok(by_rule(ruling))
}
