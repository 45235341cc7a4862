// Adding a vertex, and removing one that is isolated.
ghost use Rattle.std.specs.Prelude.{◌≡◌};
ghost use Rattle.edits.specs.Edits.{answer, edited};
ghost use Rattle.edits.specs.declared.edit.Edit.TheVariants.{AddVertex, RemoveVertex};

use edits_verdict::verdict::{add_verdict, remove_verdict};
use table::answer::Refusal;
use table::layout::{ISOLATED, NOTHING, VERTEX};
use tracing_walks::count::face_count;

// Adds vertex v. Answers the new face count.
pub fn add_vertex(t: &mut [u16], v: u16) -> Result<u32, Refusal>
    ensures { (result ≡ answer t.old (AddVertex v)) × (t.new ≡ edited t.old (AddVertex v)) }
{
    add_verdict(t, v)?;
    t[VERTEX + v as usize] = ISOLATED;
    Ok(face_count(t))
}

// Removes the isolated vertex v. Answers the new face count.
pub fn remove_vertex(t: &mut [u16], v: u16) -> Result<u32, Refusal>
    ensures { (result ≡ answer t.old (RemoveVertex v)) × (t.new ≡ edited t.old (RemoveVertex v)) }
{
    remove_verdict(t, v)?;
    t[VERTEX + v as usize] = NOTHING;
    Ok(face_count(t))
}
