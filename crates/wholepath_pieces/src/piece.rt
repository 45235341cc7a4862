// The pieces of a whole path: how a strand passes at each crossing of a step, and where.
ghost use Rattle.std.specs.Prelude.{◌<◌, ◌≡◌};
ghost use Rattle.wholepath_pieces.specs.Pieces.{spots_on, crossing_number, letter_on, spot_at, whole_piece_for, whole_piece_on, whole_form_of, spot_of};
ghost use Rattle.wholepath_pieces.specs.laws.Pieces.{SpotRead, PieceRead};

use table::layout::UNTURNED;
use weave_letters::letter::{OVER, UNDER, crossings, letter};
use wholepath_places::between::coordinate;

// In sixteenths of a millimetre: three whole words, and the remainder of each.
#[derive(Clone, Copy)]
pub struct Spot {
    pub x: i32,
    pub y: i32,
    pub z: i32,
    pub xrest: u16,
    pub yrest: u16,
    pub zrest: u16,
}

// Close ends a path.
#[derive(Clone, Copy)]
pub enum Piece {
    Over(Spot),
    Under(Spot),
    Flat(Spot),
    Close,
}

// The number of pieces on an edge of word w.
pub fn spots(w: u16) -> u16
    ensures { result ≡ spots_on w }
{
    if w == UNTURNED {
        return 1;
    }
    crossings(w)
}

// The number, counted from the edge's first end, of the i-th of its n crossings on the way along a dart.
fn crossing(n: u16, dart: u16, i: u16) -> u16
    requires { i < n }
    ensures { result ≡ crossing_number n dart i }
{
    if dart % 2 == 0 {
        return i;
    }
    n - 1 - i
}

// The letter of the i-th crossing of a step of type `kind` on an edge of word w, and 0 where it has no turns.
fn letter_at(w: u16, kind: u16, i: u16) -> u8
    requires { (kind < 2) × (i < spots_on w) }
    ensures { result ≡ letter_on w kind i }
{
    if w == UNTURNED {
        return 0;
    }
    letter(w, kind, i)
}

// The spot of crossing j of n between two ends whose words begin at `first` and `second`, with the lift whose words begin at `lift`.
fn spot_at(
    letter: u8,
    n: u16,
    j: u16,
    points: &[i32],
    lifts: &[i32],
    first: usize,
    second: usize,
    lift: usize,
) -> Spot
    requires { SpotRead n j points.now lifts.now first second lift }
    ensures { result ≡ spot_at letter n j points.now lifts.now first second lift }
{
    let x = coordinate(letter, n, j, points[first], points[second], lifts[lift]);
    let y = coordinate(
        letter,
        n,
        j,
        points[first + 1],
        points[second + 1],
        lifts[lift + 1],
    );
    let z = coordinate(
        letter,
        n,
        j,
        points[first + 2],
        points[second + 2],
        lifts[lift + 2],
    );
    Spot {
        x: x.word,
        y: y.word,
        z: z.word,
        xrest: x.rest,
        yrest: y.rest,
        zrest: z.rest,
    }
}

// The piece at a spot, by its letter.
fn piece_for(letter: u8, q: Spot) -> Piece
    ensures { result ≡ whole_piece_for letter q }
{
    if letter == OVER {
        return Piece::Over(q);
    }
    if letter == UNDER {
        return Piece::Under(q);
    }
    Piece::Flat(q)
}

// The i-th piece of step s on an edge of word w.
pub fn piece_on(
    w: u16,
    s: u16,
    i: u16,
    points: &[i32],
    lifts: &[i32],
    first: usize,
    second: usize,
    lift: usize,
) -> Piece
    requires { PieceRead w i points.now lifts.now first second lift }
    ensures { result ≡ whole_piece_on w s i points.now lifts.now first second lift }
{
    let n = spots(w);
    let l = letter_at(w, s % 2, i);
    let j = crossing(n, s / 2, i);
    let q = spot_at(l, n, j, points, lifts, first, second, lift);
    piece_for(l, q)
}

// The word of a piece.
pub fn form_word(p: Piece) -> u16
    ensures { result ≡ whole_form_of p }
{
    match p {
        Piece::Flat(_) => 0,
        Piece::Over(_) => 1,
        Piece::Under(_) => 2,
        Piece::Close => 3,
    }
}

// The spot of a piece; zeros for Close.
pub fn spot_of(p: Piece) -> Spot
    ensures { result ≡ spot_of p }
{
    match p {
        Piece::Flat(q) => q,
        Piece::Over(q) => q,
        Piece::Under(q) => q,
        Piece::Close => Spot {
            x: 0,
            y: 0,
            z: 0,
            xrest: 0,
            yrest: 0,
            zrest: 0,
        },
    }
}
