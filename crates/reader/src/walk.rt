// One step of a walk reader, by value: its answer, where the reader then stands, and the tally.
ghost use Rattle.std.specs.Prelude.{◌≡◌, ◌<◌};
ghost use Rattle.table.specs.Layout.{darts};
ghost use Rattle.reader.specs.Reader.{ends_at, moved_to, stays as staysAt, step_of};

use crate::place::{Step, placed};
use reader_tally::tally::{Tally, tally_step};
use table::answer::Refusal;
use tracing_walks::step::step;

// The step handed out is the one that the reader stood at, and the answer is 1 where the walk ends there, else 0. `at` is where
// the reader then stands. A declined step leaves it and the tally as they were.
#[derive(Clone, Copy)]
pub struct Stepped {
    pub answer: Result<u32, Refusal>,
    pub at: Step,
    pub tally: Tally,
}

// A declined step.
fn stays(at: Step, y: Tally, r: Refusal) -> Stepped
    ensures { result ≡ staysAt at y r }
{
    Stepped {
        answer: Err(r),
        at,
        tally: y,
    }
}

// Is the step that leads on to `next` the walk's last one: is that where the walk began.
fn ends(next: u16, first: Step) -> bool
    requires { (first.dart < darts) × (first.kind < 2) }
    ensures { result ≡ ends_at next first }
{
    next == 2 * first.dart + first.kind
}

// The reader goes on to step `next`.
fn moved(next: u16, first: Step, z: Tally) -> Stepped
    requires { (first.dart < darts) × (first.kind < 2) }
    ensures { result ≡ moved_to next first z }
{
    let end = ends(next, first);
    Stepped {
        answer: Ok(end as u32),
        at: Step {
            dart: next / 2,
            kind: next % 2,
        },
        tally: z,
    }
}

// Hands out the step that the reader stands at, and brings it and the tally forward.
pub fn walk_step(t: &[u16], at: Step, first: Step, y: Tally) -> Stepped
    ensures { result ≡ step_of t.now at first y }
{
    let n = placed(t, at, first);
    match n {
        Err(r) => stays(at, y, r),
        Ok(s) => {
            let next = step(t, s);
            let last = ends(next, first);
            let m = tally_step(t, s, last, y);
            match m {
                Err(r) => stays(at, y, r),
                Ok(z) => moved(next, first, z),
            }
        }
    }
}
