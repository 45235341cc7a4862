// The empty mesh.
ghost use Rattle.std.specs.Prelude.{◌≤◌, ◌≡◌, length};
ghost use Rattle.table.specs.laws.Empty.{Filled};
ghost use Rattle.table.specs.Empty.{empty_of, emptied};

use crate::answer::Refusal;
use crate::layout::{EDGE, LENGTH, NOTHING, VERTEX, WORDS};

// Stores w from index `from` on, up to `to`.
fn fill(t: &mut [u16], from: usize, to: usize, w: u16)
    requires { (from ≤ to) × (to ≤ length t.old) }
    ensures { Filled t.old from to w t.new }
{
    for i in from..to {
        t[i] = w;
    }
}

// Fills the slice with the empty mesh. Of what it held only the size is tested.
pub fn empty(t: &mut [u16]) -> Result<u32, Refusal>
    ensures { (result ≡ empty_of t.old) × (t.new ≡ emptied t.old) }
{
    if t.len() != WORDS {
        return Err(Refusal::Torn);
    }
    fill(t, 0, EDGE, NOTHING);
    fill(t, EDGE, VERTEX, 0);
    fill(t, VERTEX, LENGTH, NOTHING);
    fill(t, LENGTH, WORDS, 0);
    Ok(0)
}
