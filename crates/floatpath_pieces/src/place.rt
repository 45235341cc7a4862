// Where the lent words of a step begin, and how far they may lie.
ghost use Rattle.std.specs.Prelude.{◌≡◌};
ghost use Rattle.tracing_walks.specs.laws.Stands.{Stands};
ghost use Rattle.floatpath_pieces.specs.laws.Places.{places_of};

use table::layout::LEAVES;

// How far points and lifts may lie from zero, in sixteenths of a millimetre.
pub const FARTHEST_POINT: u32 = 65536;

pub const FARTHEST_LIFT: u32 = 4096;

// Three words each: the points of the two ends of the step's edge, and the lift of the edge.
#[derive(Clone, Copy)]
pub struct Places {
    pub first: usize,
    pub second: usize,
    pub lift: usize,
}

// The places of step s.
pub fn places_of(t: &[u16], s: u16) -> Places
    requires { Stands t.now s }
    ensures { result ≡ places_of t.now s }
{
    let e = (s / 2 / 2) as usize;
    Places {
        first: 3 * (t[LEAVES + 2 * e] as usize),
        second: 3 * (t[LEAVES + (2 * e + 1)] as usize),
        lift: 3 * e,
    }
}
