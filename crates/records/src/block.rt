// A block of a job's bytes: its whole records are run, and what is left waits at the front for the bytes that come.
ghost use Rattle.std.specs.Prelude.{◌≤◌, ◌≡◌, length, take};
ghost use Rattle.std.proofs.lemmas.List.Edits.{sets};
ghost use Rattle.runs.specs.Run.{run};
ghost use Rattle.records.specs.Reading.{reading};
ghost use Rattle.records.specs.Lines.{lines};
ghost use Rattle.records.specs.Blocks.{left, block_of};
ghost use Rattle.records.specs.laws.Running.{Ready};

use crate::records::{Stop, reads_on};
use crate::run::run_records;

// What became of a block.
#[derive(Clone, Copy)]
pub struct Block {
    // the bytes that are left
    pub left: usize,
    // the number of the record that comes next
    pub next: u64,
    // the bytes of the lines
    pub written: usize,
    // why no whole record follows
    pub stop: Stop,
}

// Runs the whole records of the first n bytes, the first of which is record `number`, writes the lines of those that are declined to the front of
// `out`, and moves the bytes that are left to the front.
pub fn run_block(t: &mut [u16], buf: &mut [u8], n: usize, number: u64, out: &mut [u8]) -> Block
    requires { (n ≤ length buf.old) × Ready number (take n buf.old) out.old }
    ensures { (result ≡ block_of t.old number (take n buf.old))
        × (t.new ≡ run t.old (reading (take n buf.old)).edits)
        × (buf.new ≡ sets buf.old 0 (left (take n buf.old)))
        × (out.new ≡ sets out.old 0 (lines t.old number (reading (take n buf.old)).edits)) }
{
    let ran = run_records(t, &buf[..n], number, out);
    if !reads_on(ran.stop) {
        return Block {
            left: 0,
            next: ran.next,
            written: ran.written,
            stop: ran.stop,
        };
    }
    buf.copy_within(ran.taken..n, 0);
    Block {
        left: n - ran.taken,
        next: ran.next,
        written: ran.written,
        stop: ran.stop,
    }
}
