// The parts written out: six signed words for each, upward.
ghost use Rattle.std.specs.Prelude.{◌≡◌, ◌+◌, ◌≤◌, eqb, length};
ghost use Rattle.std.proofs.lemmas.List.Edits.{sets};
ghost use Rattle.table.specs.Layout.{vertices};
ghost use Rattle.table.specs.Good.{Good};
ghost use Rattle.table.specs.Rotation.{rotation};
ghost use Rattle.surface_parts.specs.laws.Linking.{Labelled};
ghost use Rattle.surface.specs.Rows.{flag_of, row_of, rows};
ghost use Rattle.surface_calls.specs.laws.Rows.{Written};
ghost use Rattle.surface_calls.specs.laws.Rowing.{RowReady, RowDone, Rowing};

use surface_counts::tally::{euler, tally_parts};
use table::layout::{NOTHING, VERTEX, VERTICES};

// 1 if there are none, else 0.
fn flag(twisted: u16) -> i32
    ensures { result ≡ flag_of (eqb twisted 0) }
{
    if twisted == 0 {
        return 1;
    }
    0
}

// The six words of a part.
fn row(out: &mut [i32], at: usize, r: u16, v: u16, e: u16, f: u16, twisted: u16)
    requires { at + 6 ≤ length out.old }
    ensures { out.new ≡ sets out.old at (row_of r v e f (flag_of (eqb twisted 0))) }
{
    out[at] = r as i32;
    out[at + 1] = v as i32;
    out[at + 2] = e as i32;
    out[at + 3] = f as i32;
    out[at + 4] = euler(v, e, f);
    out[at + 5] = flag(twisted);
}

// The row of vertex r, if it is the smallest of its part. Answers where the next row goes.
fn write_root(
    t: &[u16],
    up: &[u16; VERTICES],
    vs: &[u16; VERTICES],
    es: &[u16; VERTICES],
    fs: &[u16; VERTICES],
    odd: &[u16; VERTICES],
    out: &mut [i32],
    at: usize,
    r: usize,
) -> usize
    requires { RowReady t.now up.now vs.now es.now fs.now odd.now r at out.old }
    ensures { RowDone t.now r at out.old result out.new }
{
    if t[VERTEX + r] == NOTHING {
        return at;
    }
    if up[r] as usize != r {
        return at;
    }
    row(out, at, r as u16, vs[r], es[r], fs[r], odd[r]);
    at + 6
}

// The rows of all parts, upward. Answers how many words they are.
fn write_rows(
    t: &[u16],
    up: &[u16; VERTICES],
    vs: &[u16; VERTICES],
    es: &[u16; VERTICES],
    fs: &[u16; VERTICES],
    odd: &[u16; VERTICES],
    out: &mut [i32],
) -> usize
    requires { Rowing t.now up.now vs.now es.now fs.now odd.now 0 0 out.old out.old }
    ensures { Written (rotation t.now) vertices result out.old out.new }
{
    let mut at: usize = 0;
    for r in 0..VERTICES {
        at = write_root(t, up, vs, es, fs, odd, out, at, r);
    }
    at
}

// The rows of the parts that are labelled, upward. Answers how many words they are.
pub fn labelled_rows(
    t: &[u16],
    up: &[u16; VERTICES],
    turn: &[u8; VERTICES],
    out: &mut [i32],
) -> usize
    requires { Good t.now × Labelled t.now up.now turn.now × (length (rows (rotation t.now) vertices) ≤ length out.old) }
    ensures { Written (rotation t.now) vertices result out.old out.new }
{
    let mut vs = [0u16; VERTICES];
    let mut es = [0u16; VERTICES];
    let mut fs = [0u16; VERTICES];
    let mut odd = [0u16; VERTICES];
    tally_parts(t, up, turn, &mut vs, &mut es, &mut fs, &mut odd);
    write_rows(t, up, &vs, &es, &fs, &odd, out)
}
