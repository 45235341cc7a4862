// The step that a call names: the door of every call on a ribbon, and its refusals in document 01's order.
ghost use Rattle.std.specs.Prelude.{◌≡◌};
ghost use Rattle.weave.specs.Calls.{named_step};

use check_table::whole::is_good;
use table::answer::Refusal;
use table::layout::{DARTS, EDGE};

// The step of dart and type, as a step word. The type is a number, since C names it by any.
pub fn named_step(t: &[u16], dart: u16, kind: u16) -> Result<u16, Refusal>
    ensures { result ≡ named_step t.now dart kind }
{
    if !is_good(t) {
        return Err(Refusal::Torn);
    }
    let d = dart as usize;
    if DARTS <= d {
        return Err(Refusal::NoSuchName);
    }
    if 1 < kind {
        return Err(Refusal::NoSuchName);
    }
    if t[EDGE + d / 2] == 0 {
        return Err(Refusal::Absent);
    }
    Ok(2 * dart + kind)
}
