// The lines of the job program for records that are declined.
ghost use Rattle.std.specs.Prelude.{◌≤◌, ◌^◌};
ghost use Rattle.records.specs.Lines.{no_line, stop_line};
ghost use Rattle.text.specs.Paste.{Pasted};

use crate::records::Stop;
use table::answer::{Refusal, number_of};
use text::number::number;
use text::window::{byte, bytes};

// Writes "no", the number n of a record and the refusal's number from place `at` on. The place after them.
pub fn no_line(out: &mut [u8], at: usize, n: u64, refusal: u64) -> usize
    requires { at ≤ 2 ^ 40 }
    ensures { Pasted 0 at out.old (no_line n refusal) result out.new }
{
    let word = bytes(out, 0, at, &[b'n', b'o', b' ']);
    let first = number(out, 0, word, n);
    let space = byte(out, 0, first, b' ');
    let second = number(out, 0, space, refusal);
    byte(out, 0, second, b'\n')
}

// Writes the line of the refusal that ended a reading, to the front of `out`: nothing where it ended with its bytes. The number of bytes.
pub fn stop_line(out: &mut [u8], n: u64, stop: Stop) -> usize
    ensures { Pasted 0 0 out.old (stop_line n stop) result out.new }
{
    match stop {
        Stop::End => 0,
        Stop::BadMark => no_line(out, 0, n, number_of(Refusal::BadMark)),
        Stop::CutRecord => no_line(out, 0, n, number_of(Refusal::CutRecord)),
    }
}
