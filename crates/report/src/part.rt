// The lines of the parts, upward, read off their rows.
ghost use Rattle.std.specs.Prelude.{◌<◌, ◌≤◌, ◌^◌, length};
ghost use Rattle.table.specs.Good.{Good};
ghost use Rattle.table.specs.Rotation.{rotation};
ghost use Rattle.tracing.specs.Listing.{gather};
ghost use Rattle.surface.specs.Parts.{parts};
ghost use Rattle.report_lines.specs.Lines.{part_line};
ghost use Rattle.report_lines.specs.laws.Wrote.{Wrote, parts_most};
ghost use Rattle.report.specs.laws.Parts.{Sided, LineOf};

use report_lines::field::signed_field;
use surface_calls::rows::labelled_rows;
use surface_parts::forest::label_parts;
use table::layout::VERTICES;
use text::window::{byte, bytes};

// o for the mark of an orientable part, n for the other.
fn side(flag: i32) -> u8
    ensures { Sided flag result }
{
    if flag == 0 {
        return b'n';
    }
    b'o'
}

// The line of the part that has this row.
fn part_line(row: &[i32], out: &mut [u8], from: usize, at: usize) -> usize
    requires { (6 ≤ length row.now) × (at < 2 ^ 46) }
    ensures { LineOf row.now from at out.old result out.new }
{
    let letter = side(row[5]);
    let word = bytes(out, from, at, b"part");
    let first = signed_field(out, from, word, row[0]);
    let second = signed_field(out, from, first, row[4]);
    let gap = byte(out, from, second, b' ');
    let third = byte(out, from, gap, letter);
    byte(out, from, third, b'\n')
}

// The lines of all parts.
pub fn part_lines(t: &[u16], out: &mut [u8], from: usize, at: usize) -> usize
    requires { Good t.now × (at < 2 ^ 44) }
    ensures { Wrote parts_most from at out.old (gather (part_line (rotation t.now)) (parts (rotation t.now))) result out.new }
{
    let mut up = [0u16; VERTICES];
    let mut turn = [0u8; VERTICES];
    label_parts(t, &mut up, &mut turn);
    let mut rows = [0i32; 6 * VERTICES];
    let n = labelled_rows(t, &up, &turn, &mut rows);
    let mut end = at;
    for row in rows[..n].chunks_exact(6) {
        end = part_line(row, out, from, end);
    }
    end
}
