// The walk reader as C keeps it: a record that the host lends, without the table, and one step of it by value.
ghost use Rattle.std.specs.Prelude.{◌≡◌};
ghost use Rattle.reader.specs.Standing.{called_of};

use crate::place::Step;
use crate::reader::step_from;
use reader_tally::tally::Tally;
use table::answer::code;

// Dart and type of the step that it hands out next, then those of the step that its walk began at.
#[repr(C)]
#[derive(Clone, Copy)]
pub struct Standing {
    pub dart: u16,
    pub kind: u16,
    pub start_dart: u16,
    pub start_kind: u16,
}

// What a call leaves: the answer as C gets it, the reader and the tally.
#[derive(Clone, Copy)]
pub struct Called {
    pub code: i64,
    pub reader: Standing,
    pub tally: Tally,
}

// Hands out the step that the reader stands at, and brings it and the tally forward.
pub fn step_call(t: &[u16], r: Standing, y: Tally) -> Called
    ensures { result ≡ called_of t.now r y }
{
    let at = Step {
        dart: r.dart,
        kind: r.kind,
    };
    let first = Step {
        dart: r.start_dart,
        kind: r.start_kind,
    };
    let s = step_from(t, at, first, y);
    let answer = s.answer;
    let next = s.at;
    let tally = s.tally;
    let number = code(answer);
    Called {
        code: number,
        reader: Standing {
            dart: next.dart,
            kind: next.kind,
            start_dart: first.dart,
            start_kind: first.kind,
        },
        tally,
    }
}
