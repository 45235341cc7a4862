// The verdict on each edit, over the lent table: the first refusal that holds, in document 01's order.
ghost use Rattle.std.specs.Prelude.{◌≡◌, true, not, ◌&&◌, eqb, ltb, Ok, Err};
ghost use Rattle.table.specs.Layout.{edges};
ghost use Rattle.table.specs.Good.{Good};
ghost use Rattle.table.specs.Rotation.{rotation};
ghost use Rattle.table.specs.Answers.{unless};
ghost use Rattle.table.specs.declared.answer.Refusal.TheVariants.{Overturned};
ghost use Rattle.tracing.specs.Corner.{well_formed, present};
ghost use Rattle.edits.specs.Verdicts.{new_vertex, old_vertex, new_edge, old_edge, isolation, fair_length, and_then, verdict};
ghost use Rattle.edits.specs.declared.edit.Edit.TheVariants.{AddVertex, RemoveVertex, InsertEdge, DeleteEdge, TurnEdge};

use crate::turns::turned_word;
use check_table::whole::is_good;
use table::answer::Refusal;
use table::layout::{EDGE, EDGES, ISOLATED, NOTHING, UNTURNED, VERTEX, VERTICES};
use tracing_walks::corner::{is_corner, is_present};

// A vertex to add.
fn new_vertex(t: &[u16], v: u16) -> Result<(), Refusal>
    ensures { result ≡ new_vertex t.now v }
{
    if !is_good(t) {
        return Err(Refusal::Torn);
    }
    if VERTICES <= v as usize {
        return Err(Refusal::NoSuchName);
    }
    if t[VERTEX + v as usize] != NOTHING {
        return Err(Refusal::Taken);
    }
    Ok(())
}

// A vertex that is to be there.
fn old_vertex(t: &[u16], v: u16) -> Result<(), Refusal>
    ensures { result ≡ old_vertex t.now v }
{
    if !is_good(t) {
        return Err(Refusal::Torn);
    }
    if VERTICES <= v as usize {
        return Err(Refusal::NoSuchName);
    }
    if t[VERTEX + v as usize] == NOTHING {
        return Err(Refusal::Absent);
    }
    Ok(())
}

// An edge that is to be there.
fn old_edge(t: &[u16], e: u16) -> Result<(), Refusal>
    ensures { result ≡ old_edge t.now e }
{
    if !is_good(t) {
        return Err(Refusal::Torn);
    }
    if EDGES <= e as usize {
        return Err(Refusal::NoSuchName);
    }
    if t[EDGE + e as usize] == 0 {
        return Err(Refusal::Absent);
    }
    Ok(())
}

// Are these the names of an edge and of two corners.
fn are_names(e: u16, c1: u16, c2: u16) -> bool
    ensures { result ≡ (ltb e edges && (well_formed c1 && well_formed c2)) }
{
    if EDGES <= e as usize {
        return false;
    }
    if !is_corner(c1) {
        return false;
    }
    is_corner(c2)
}

// Are both corners there.
fn are_present(t: &[u16], c1: u16, c2: u16) -> bool
    requires { Good t.now × (well_formed c1 ≡ true) × (well_formed c2 ≡ true) }
    ensures { result ≡ (present (rotation t.now) c1 && present (rotation t.now) c2) }
{
    if !is_present(t, c1) {
        return false;
    }
    is_present(t, c2)
}

// An edge to insert, and its corners.
fn new_edge(t: &[u16], e: u16, c1: u16, c2: u16) -> Result<(), Refusal>
    ensures { result ≡ new_edge t.now e c1 c2 }
{
    if !is_good(t) {
        return Err(Refusal::Torn);
    }
    if !are_names(e, c1, c2) {
        return Err(Refusal::NoSuchName);
    }
    if t[EDGE + e as usize] != 0 {
        return Err(Refusal::Taken);
    }
    if !are_present(t, c1, c2) {
        return Err(Refusal::Absent);
    }
    Ok(())
}

// By the word of a vertex that is there: has it no edge.
fn isolation_of(w: u16) -> Result<(), Refusal>
    ensures { result ≡ isolation w }
{
    if w != ISOLATED {
        return Err(Refusal::Joined);
    }
    Ok(())
}

// By the edge word that an edit would write: 0 says that its turns would pass 99.
fn room_for(w: u16) -> Result<(), Refusal>
    ensures { result ≡ unless (not (eqb w 0)) (Err Overturned) (Ok tt) }
{
    if w == 0 {
        return Err(Refusal::Overturned);
    }
    Ok(())
}

// By the length of an edge to insert.
fn fair_length(length: u16) -> Result<(), Refusal>
    ensures { result ≡ fair_length length }
{
    if length == 0 {
        return Err(Refusal::Far);
    }
    Ok(())
}

// By the edge word that an insertion would write, then its length.
fn strip_for(w: u16, length: u16) -> Result<(), Refusal>
    ensures { result ≡ and_then (unless (not (eqb w 0)) (Err Overturned) (Ok tt)) (fair_length length) }
{
    room_for(w)?;
    fair_length(length)
}

// To add vertex v.
pub fn add_verdict(t: &[u16], v: u16) -> Result<(), Refusal>
    ensures { result ≡ verdict t.now (AddVertex v) }
{
    new_vertex(t, v)
}

// To remove vertex v.
pub fn remove_verdict(t: &[u16], v: u16) -> Result<(), Refusal>
    ensures { result ≡ verdict t.now (RemoveVertex v) }
{
    old_vertex(t, v)?;
    isolation_of(t[VERTEX + v as usize])
}

// To insert edge e with turns k and a length between corners c1 and c2.
pub fn insert_verdict(
    t: &[u16],
    e: u16,
    c1: u16,
    c2: u16,
    k: i16,
    length: u16,
) -> Result<(), Refusal>
    ensures { result ≡ verdict t.now (InsertEdge e c1 c2 k length) }
{
    new_edge(t, e, c1, c2)?;
    strip_for(turned_word(UNTURNED, k), length)
}

// To delete edge e.
pub fn delete_verdict(t: &[u16], e: u16) -> Result<(), Refusal>
    ensures { result ≡ verdict t.now (DeleteEdge e) }
{
    old_edge(t, e)
}

// To turn edge e by an amount.
pub fn turn_verdict(t: &[u16], e: u16, amount: i16) -> Result<(), Refusal>
    ensures { result ≡ verdict t.now (TurnEdge e amount) }
{
    old_edge(t, e)?;
    room_for(turned_word(t[EDGE + e as usize], amount))
}
