// The pieces of a whole path, written to three lent slices that are long enough.
ghost use Rattle.std.specs.Prelude.{◌+◌, ◌≡◌};
ghost use mathlib.Core.List.{◌∷◌, [], flat_map};
ghost use Rattle.table.specs.Output.{front};
ghost use Rattle.wholepath_pieces.specs.Pieces.{whole_forms_of, words_of, rests_of, whole_path};
ghost use Rattle.wholepath_writing.specs.laws.Written.{out, Room, Written};
ghost use Rattle.wholepath_writing.specs.laws.Laying.{StepRoom, Stepped, PathRoom, Laid};

use floatpath_pieces::place::places_of;
use tracing_walks::walk::walk;
use weave_letters::letter::edge_word;
use wholepath_pieces::piece::{Piece, form_word, piece_on, spot_of, spots};

// Piece n of a path.
fn write_piece(forms: &mut [u16], coords: &mut [i32], remainders: &mut [u16], n: usize, p: Piece)
    requires { Room (n + 1) (out forms.old coords.old remainders.old) }
    ensures { Written (p ∷ []) n (out forms.old coords.old remainders.old) (out forms.new coords.new remainders.new) }
{
    forms[n] = form_word(p);
    let q = spot_of(p);
    let x = q.x;
    let y = q.y;
    let z = q.z;
    coords[3 * n] = x;
    coords[3 * n + 1] = y;
    coords[3 * n + 2] = z;
    remainders[3 * n] = q.xrest;
    remainders[3 * n + 1] = q.yrest;
    remainders[3 * n + 2] = q.zrest;
}

// The pieces of step s, from piece `start` on. The number of the piece after them.
fn write_step(
    t: &[u16],
    points: &[i32],
    lifts: &[i32],
    forms: &mut [u16],
    coords: &mut [i32],
    remainders: &mut [u16],
    s: u16,
    start: usize,
) -> usize
    requires { StepRoom t.now points.now lifts.now s start (out forms.old coords.old remainders.old) }
    ensures { Stepped t.now points.now lifts.now s start
        (out forms.old coords.old remainders.old) result (out forms.new coords.new remainders.new) }
{
    let w = edge_word(t, s);
    let n = spots(w);
    let at = places_of(t, s);
    let first = at.first;
    let second = at.second;
    let lift = at.lift;
    for i in 0..n {
        let p = piece_on(w, s, i, points, lifts, first, second, lift);
        write_piece(forms, coords, remainders, start + i as usize, p);
    }
    start + n as usize
}

// The pieces of the walk from step s, at the front of the slices. The number of them.
fn write_pieces(
    t: &[u16],
    points: &[i32],
    lifts: &[i32],
    forms: &mut [u16],
    coords: &mut [i32],
    remainders: &mut [u16],
    s: u16,
) -> usize
    requires { PathRoom t.now points.now lifts.now s (out forms.old coords.old remainders.old) }
    ensures { Laid t.now points.now lifts.now s
        (out forms.old coords.old remainders.old) result (out forms.new coords.new remainders.new) }
{
    let mut n: usize = 0;
    for at in walk(t, s) {
        n = write_step(t, points, lifts, forms, coords, remainders, at, n);
    }
    n
}

// The path from step s, at the front of the slices. The rest keeps its words.
pub fn write_path(
    t: &[u16],
    points: &[i32],
    lifts: &[i32],
    forms: &mut [u16],
    coords: &mut [i32],
    remainders: &mut [u16],
    s: u16,
)
    requires { PathRoom t.now points.now lifts.now s (out forms.old coords.old remainders.old) }
    ensures { (forms.new ≡ front (flat_map whole_forms_of (whole_path t.now points.now lifts.now s)) forms.old)
        × (coords.new ≡ front (flat_map words_of (whole_path t.now points.now lifts.now s)) coords.old)
        × (remainders.new ≡ front (flat_map rests_of (whole_path t.now points.now lifts.now s)) remainders.old) }
{
    let n = write_pieces(t, points, lifts, forms, coords, remainders, s);
    write_piece(forms, coords, remainders, n, Piece::Close);
}
