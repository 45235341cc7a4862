// Where a crossing sits between the ends of its edge: in whole sixteenths, and what the division leaves.
ghost use Rattle.std.specs.Prelude.{◌≤◌, ◌≡◌, nat_abs};
ghost use Rattle.floatpath_pieces.specs.Path.{farthest_point};
ghost use Rattle.wholepath_places.specs.Between.{lifted as liftedOf, place_of, lifted_place};
ghost use Rattle.wholepath_places.specs.laws.Between.{Raised, Between, NearLift, Crossing};

use floatpath_pieces::place::FARTHEST_POINT;
use weave_letters::letter::{OVER, UNDER};

// One coordinate: its word, in sixteenths of a millimetre, and the remainder of the division that gave it.
#[derive(Clone, Copy)]
pub struct Place {
    pub word: i32,
    pub rest: u16,
}

// As far as a point can lie from zero.
const FARTHEST: i32 = FARTHEST_POINT as i32;

// A coordinate of a point, counted from the lowest that there can be: it is not negative then, and a division rounds it down.
fn raised(a: i32) -> u32
    requires { nat_abs a ≤ farthest_point }
    ensures { Raised a result }
{
    (a + FARTHEST) as u32
}

// The place of crossing j of n, counted from the end at a, on the way to the end at b.
fn between(n: u16, j: u16, a: i32, b: i32) -> Place
    requires { Between n j a b }
    ensures { result ≡ place_of n j a b }
{
    let m = 2 * n as u32;
    let k = 2 * j as u32 + 1;
    let sum = (m - k) * raised(a) + k * raised(b);
    let whole = sum / m;
    // By a product: a remainder would divide again.
    Place {
        word: whole as i32 - FARTHEST,
        rest: (sum - m * whole) as u16,
    }
}

// A coordinate z with the lift l, by the letter of the crossing.
fn lifted(letter: u8, z: i32, l: i32) -> i32
    requires { NearLift z l }
    ensures { result ≡ liftedOf letter z l }
{
    if letter == OVER {
        return z + l;
    }
    if letter == UNDER {
        return z - l;
    }
    z
}

// The place of crossing j of n with its lift.
pub fn coordinate(letter: u8, n: u16, j: u16, a: i32, b: i32, l: i32) -> Place
    requires { Crossing n j a b l }
    ensures { result ≡ lifted_place letter n j a b l }
{
    let p = between(n, j, a, b);
    Place {
        word: lifted(letter, p.word, l),
        rest: p.rest,
    }
}
