// The pieces of a float path, written to two lent slices that are long enough.
ghost use Rattle.std.specs.Prelude.{◌+◌, ◌*◌, ◌<◌, ◌≡◌, length};
ghost use mathlib.Core.List.{flat_map};
ghost use Rattle.table.specs.Output.{front};
ghost use Rattle.floatpath_pieces.specs.Path.{forms_of, floats_of, path_from};
ghost use Rattle.floatpath.specs.laws.Laying.{PieceWritten, PathRoom, Laid};

use floatpath_pieces::piece::{Piece, form_word, piece_on, point_of};
use tracing_walks::walk::walk;

// Piece n of a path.
fn write_piece(forms: &mut [u16], coords: &mut [f32], n: usize, p: Piece)
    requires { (n < length forms.old) × (3 * n + 2 < length coords.old) }
    ensures { PieceWritten n p forms.old coords.old forms.new coords.new }
{
    forms[n] = form_word(p);
    let q = point_of(p);
    coords[3 * n] = q.x;
    coords[3 * n + 1] = q.y;
    coords[3 * n + 2] = q.z;
}

// The pieces of the walk from step s, at the front of the slices. The number of them.
fn write_pieces(
    t: &[u16],
    points: &[i32],
    lifts: &[i32],
    forms: &mut [u16],
    coords: &mut [f32],
    s: u16,
) -> usize
    requires { PathRoom t.now points.now lifts.now s (length forms.old) (length coords.old) }
    ensures { Laid t.now points.now lifts.now s forms.old coords.old result forms.new coords.new }
{
    let mut n: usize = 0;
    for at in walk(t, s) {
        let p = piece_on(t, points, lifts, at);
        write_piece(forms, coords, n, p);
        n += 1;
    }
    n
}

// The path from step s, at the front of the slices. The rest keeps its words.
pub fn write_path(
    t: &[u16],
    points: &[i32],
    lifts: &[i32],
    forms: &mut [u16],
    coords: &mut [f32],
    s: u16,
)
    requires { PathRoom t.now points.now lifts.now s (length forms.old) (length coords.old) }
    ensures { (forms.new ≡ front (flat_map forms_of (path_from t.now points.now lifts.now s)) forms.old)
        × (coords.new ≡ front (flat_map floats_of (path_from t.now points.now lifts.now s)) coords.old) }
{
    let n = write_pieces(t, points, lifts, forms, coords, s);
    write_piece(forms, coords, n, Piece::Close);
}
