// The walk reader as a struct over the lent table. Its functions are thin: each takes the struct apart and leaves the work to
// `walk_step`, which takes the slice and the numbers.
ghost use Rattle.std.specs.Prelude.{◌≡◌};
ghost use Rattle.reader.specs.Held.{reader_at, held_step, held_after};
ghost use Rattle.reader.specs.Reader.{step_of};

use crate::place::Step;
use crate::walk::{Stepped, walk_step};
use reader_tally::tally::Tally;
use table::answer::Refusal;

// The table, the dart and the type of the step that is handed out next, and the step that the walk began at.
#[derive(Clone, Copy)]
pub struct Reader<'a> {
    pub table: &'a [u16],
    pub dart: u16,
    pub kind: u16,
    pub first: Step,
}

// A reader at the step of dart and type. `begin` says whether its making is accepted; where it is not, each of its steps is declined as `begin` would be.
pub fn new<'a>(table: &'a [u16], dart: u16, kind: u16) -> Reader<'a>
    ensures { result ≡ reader_at table.entry dart kind }
{
    Reader {
        table,
        dart,
        kind,
        first: Step { dart, kind },
    }
}

// Hands out the step that the reader stands at, and brings it and the tally forward: 1 where the walk ends there, else 0.
pub fn step<'s, 'a>(r: &'s mut Reader<'a>, tally: &mut Tally) -> Result<u32, Refusal>
    ensures { (result ≡ (held_step r.old tally.old).answer)
        × (r.new ≡ held_after r.old tally.old)
        × (tally.new ≡ (held_step r.old tally.old).tally) }
{
    let at = Step {
        dart: r.dart,
        kind: r.kind,
    };
    let s = walk_step(r.table, at, r.first, *tally);
    r.dart = s.at.dart;
    r.kind = s.at.kind;
    *tally = s.tally;
    s.answer
}

// One step of a reader that is made for it: it stands at `at`, and its walk began at `first`. For who keeps these steps and not the table, as C does.
pub fn step_from<'a>(table: &'a [u16], at: Step, first: Step, y: Tally) -> Stepped
    ensures { result ≡ step_of table.now at first y }
{
    let mut r = Reader {
        table,
        dart: at.dart,
        kind: at.kind,
        first,
    };
    let mut tally = y;
    let answer = step(&mut r, &mut tally);
    Stepped {
        answer,
        at: Step {
            dart: r.dart,
            kind: r.kind,
        },
        tally,
    }
}
