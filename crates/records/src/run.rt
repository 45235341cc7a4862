// Records run over a table, with a line for each that is declined.
ghost use Rattle.std.specs.Prelude.{◌≤◌, ◌^◌, ◌≡◌};
ghost use Rattle.std.proofs.lemmas.List.Edits.{sets};
ghost use Rattle.edits.specs.Edits.{edited};
ghost use Rattle.runs.specs.Run.{run};
ghost use Rattle.records.specs.Reading.{reading};
ghost use Rattle.records.specs.Lines.{edit_line, lines};
ghost use Rattle.records.specs.Blocks.{ran_of};
ghost use Rattle.records.specs.laws.Running.{Ready};
ghost use Rattle.text.specs.Paste.{Pasted};

use crate::lines::no_line;
use crate::records::{Stop, first_record};
use edits::edit::Edit;
use edits_do::apply::apply;
use table::answer::number_of;

// What became of some bytes.
#[derive(Clone, Copy)]
pub struct Ran {
    // the bytes of the whole records
    pub taken: usize,
    // the number of the record that comes next
    pub next: u64,
    // the bytes of the lines
    pub written: usize,
    // why no whole record follows
    pub stop: Stop,
}

// Does the edit of record n. One that is declined gets its line, from place `at` on. The place after it.
fn run_record(t: &mut [u16], edit: Edit, n: u64, out: &mut [u8], at: usize) -> usize
    requires { at ≤ 2 ^ 40 }
    ensures { (t.new ≡ edited t.old edit) × Pasted 0 at out.old (edit_line t.old n edit) result out.new }
{
    match apply(t, edit) {
        Ok(_) => at,
        Err(r) => no_line(out, at, n, number_of(r)),
    }
}

// Runs the whole records of some bytes, the first of which is record `number`, and writes the lines of those that are declined to the front of `out`.
pub fn run_records(t: &mut [u16], bytes: &[u8], number: u64, out: &mut [u8]) -> Ran
    requires { Ready number bytes.now out.old }
    ensures { (result ≡ ran_of t.old number bytes.now)
        × (t.new ≡ run t.old (reading bytes.now).edits)
        × (out.new ≡ sets out.old 0 (lines t.old number (reading bytes.now).edits)) }
{
    let mut at: usize = 0;
    let mut next = number;
    let mut end: usize = 0;
    // A record says how long it is, so the next one's place is found on the way.
    loop {
        match first_record(&bytes[at..]) {
            Ok(record) => {
                end = run_record(t, record.edit, next, out, end);
                at += record.size;
                next += 1;
            }
            Err(stop) => {
                return Ran {
                    taken: at,
                    next,
                    written: end,
                    stop,
                };
            }
        }
    }
}
