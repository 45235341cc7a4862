// Where a reader stands, and the refusals of its making and of its steps that come of the table and the place.
ghost use Rattle.std.specs.Prelude.{◌≡◌};
ghost use Rattle.reader.specs.Reader.{begin_of, placed as placed_at};

use check_table::whole::is_good;
use table::answer::Refusal;
use table::layout::{DARTS, EDGE};
use weave_letters::named::named_step;

// "A step is a dart d with a trace type t": a reader stands at the one that it hands out next, and keeps the one that its
// walk began at, which tells where it ends.
#[derive(Clone, Copy)]
pub struct Step {
    pub dart: u16,
    pub kind: u16,
}

// 0 if a reader can be made at the step, and else the refusal of its making.
pub fn begin(t: &[u16], dart: u16, kind: u16) -> Result<u32, Refusal>
    ensures { result ≡ begin_of t.now dart kind }
{
    named_step(t, dart, kind)?;
    Ok(0)
}

// The step that a reader stands at, if that and its start are there.
pub fn placed(t: &[u16], at: Step, first: Step) -> Result<u16, Refusal>
    ensures { result ≡ placed_at t.now at first }
{
    if !is_good(t) {
        return Err(Refusal::Torn);
    }
    let d = at.dart as usize;
    let f = first.dart as usize;
    if DARTS <= d {
        return Err(Refusal::NoSuchName);
    }
    if 1 < at.kind {
        return Err(Refusal::NoSuchName);
    }
    if DARTS <= f {
        return Err(Refusal::NoSuchName);
    }
    if 1 < first.kind {
        return Err(Refusal::NoSuchName);
    }
    if t[EDGE + d / 2] == 0 {
        return Err(Refusal::Absent);
    }
    if t[EDGE + f / 2] == 0 {
        return Err(Refusal::Absent);
    }
    Ok(2 * at.dart + at.kind)
}
