// The pieces of a float path: how a strand passes at a step, and where.
ghost use Rattle.std.specs.Prelude.{◌≡◌, false};
ghost use Rattle.tracing_walks.specs.laws.Stands.{Stands};
ghost use Rattle.floatpath_pieces.specs.Exact.{over32};
ghost use Rattle.floatpath_pieces.specs.Path.{thirty_seconds, point_at, letter_of, piece_for, piece_on, form_of, point_of, far_step};
ghost use Rattle.floatpath_pieces.specs.laws.Places.{Lent};
ghost use Rattle.floatpath_pieces.specs.laws.Coordinate.{NearEnds, Readable};

use crate::exact::over_32;
use crate::place::places_of;
use table::layout::UNTURNED;
use weave_letters::letter::{OVER, UNDER, edge_word, letter};

// In millimetres.
#[derive(Clone, Copy)]
pub struct Point {
    pub x: f32,
    pub y: f32,
    pub z: f32,
}

// Close ends a path.
#[derive(Clone, Copy)]
pub enum Piece {
    Over(Point),
    Under(Point),
    Flat(Point),
    Close,
}

// A coordinate in millimetres, from those of the edge's ends and its lift in sixteenths.
fn coordinate(letter: u8, a: i32, b: i32, l: i32) -> f32
    requires { NearEnds a b l }
    ensures { result ≡ over32 (thirty_seconds letter a b l) }
{
    if letter == OVER {
        return over_32(a + b + 2 * l);
    }
    if letter == UNDER {
        return over_32(a + b - 2 * l);
    }
    over_32(a + b)
}

// The point between two ends whose words begin at i and j, with the lift whose words begin at k.
fn point_at(letter: u8, points: &[i32], lifts: &[i32], i: usize, j: usize, k: usize) -> Point
    requires { Readable points.now lifts.now i j k }
    ensures { result ≡ point_at letter points.now lifts.now i j k }
{
    let x = coordinate(letter, points[i], points[j], lifts[k]);
    let y = coordinate(letter, points[i + 1], points[j + 1], lifts[k + 1]);
    let z = coordinate(letter, points[i + 2], points[j + 2], lifts[k + 2]);
    Point { x: x, y: y, z: z }
}

// The letter of step s where its edge has one turn, and 0 where it has none.
fn letter_of(t: &[u16], s: u16) -> u8
    requires { Stands t.now s }
    ensures { result ≡ letter_of t.now s }
{
    let w = edge_word(t, s);
    if w == UNTURNED {
        return 0;
    }
    letter(w, s % 2, 0)
}

// The piece at a point, by its letter.
fn piece_for(letter: u8, q: Point) -> Piece
    ensures { result ≡ piece_for letter q }
{
    if letter == OVER {
        return Piece::Over(q);
    }
    if letter == UNDER {
        return Piece::Under(q);
    }
    Piece::Flat(q)
}

// The piece of step s.
pub fn piece_on(t: &[u16], points: &[i32], lifts: &[i32], s: u16) -> Piece
    requires { Lent t.now points.now lifts.now s × (far_step t.now points.now lifts.now s ≡ false) }
    ensures { result ≡ piece_on t.now points.now lifts.now s }
{
    let l = letter_of(t, s);
    let p = places_of(t, s);
    let q = point_at(l, points, lifts, p.first, p.second, p.lift);
    piece_for(l, q)
}

// The word of a piece.
pub fn form_word(p: Piece) -> u16
    ensures { result ≡ form_of p }
{
    match p {
        Piece::Flat(_) => 0,
        Piece::Over(_) => 1,
        Piece::Under(_) => 2,
        Piece::Close => 3,
    }
}

// The point of a piece; zeros for Close.
pub fn point_of(p: Piece) -> Point
    ensures { result ≡ point_of p }
{
    match p {
        Piece::Flat(q) => q,
        Piece::Over(q) => q,
        Piece::Under(q) => q,
        Piece::Close => Point {
            x: 0.0,
            y: 0.0,
            z: 0.0,
        },
    }
}
