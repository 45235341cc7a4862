// All lines, one after the other.
ghost use Rattle.std.specs.Prelude.{◌-◌, ◌<◌, ◌^◌, min, ◌≡◌, length};
ghost use Rattle.table.specs.Good.{Good};
ghost use Rattle.text.specs.Paste.{paste};
ghost use Rattle.std.proofs.lemmas.List.Edits.{sets};
ghost use Rattle.report_lines.specs.Lines.{report as reportOf};
ghost use Rattle.report.specs.Window.{window_text, window_of};

use crate::line::{mesh_line, weave_line};
use crate::part::part_lines;
use report_lines::walk::{lone_lines, walk_lines};

// What the window from place `from` on shows of the report on a good table. The length of the report.
pub fn report(t: &[u16], from: usize, out: &mut [u8]) -> usize
    requires { Good t.now }
    ensures { (result ≡ length (reportOf t.now)) × (out.new ≡ paste from 0 out.old (reportOf t.now)) × (result < 2 ^ 31) }
{
    let mesh = mesh_line(t, out, from, 0);
    let parts = part_lines(t, out, from, mesh);
    let walks = walk_lines(t, out, from, parts);
    let lones = lone_lines(t, out, from, walks.at, walks.index);
    weave_line(t, out, from, lones)
}

// A part of the report, as it is written to an output.
#[derive(Clone, Copy)]
pub struct Window {
    // the bytes that are written next
    pub shown: usize,
    // those of the whole report
    pub size: usize,
}

// How many of `size` bytes are shown from place `from` on, where there is room for so many.
fn shown_of(size: usize, from: usize, room: usize) -> usize
    ensures { result ≡ min room (size - from) }
{
    size.saturating_sub(from).min(room)
}

// Writes what comes after the first `from` bytes of the report on a good table to the front of `out`, as much as it has room for.
pub fn show(t: &[u16], from: usize, out: &mut [u8]) -> Window
    requires { Good t.now }
    ensures { (result ≡ window_of from (length out.old) t.now)
        × (out.new ≡ sets out.old 0 (window_text from (length out.old) t.now))
        × (result.size < 2 ^ 31) }
{
    let size = report(t, from, out);
    let shown = shown_of(size, from, out.len());
    Window { shown, size }
}
