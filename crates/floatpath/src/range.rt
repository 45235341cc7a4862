// Whether lent words are in range.
ghost use Rattle.std.specs.Prelude.{◌+◌, ◌≤◌, ◌<◌, ◌≡◌, length};
ghost use Rattle.floatpath_pieces.specs.Path.{farthest_point, past, far_three, far_step};
ghost use Rattle.floatpath_pieces.specs.laws.Places.{Lent};

use floatpath_pieces::place::{FARTHEST_LIFT, FARTHEST_POINT, places_of};

// Is z more than `most` from zero, either way.
fn is_past(z: i32, most: u32) -> bool
    requires { most ≤ farthest_point }
    ensures { result ≡ past most z }
{
    let m = most as i32;
    if z < -m {
        return true;
    }
    m < z
}

// Is one of the three words from index i on out of range.
fn is_far(words: &[i32], i: usize, most: u32) -> bool
    requires { (i + 2 < length words.now) × (most ≤ farthest_point) }
    ensures { result ≡ far_three words.now i most }
{
    if is_past(words[i], most) {
        return true;
    }
    if is_past(words[i + 1], most) {
        return true;
    }
    is_past(words[i + 2], most)
}

// Is a point at an end of the edge of step s, or its lift, out of range.
pub fn is_far_step(t: &[u16], points: &[i32], lifts: &[i32], s: u16) -> bool
    requires { Lent t.now points.now lifts.now s }
    ensures { result ≡ far_step t.now points.now lifts.now s }
{
    let p = places_of(t, s);
    let first = p.first;
    let second = p.second;
    let lift = p.lift;
    if is_far(points, first, FARTHEST_POINT) {
        return true;
    }
    if is_far(points, second, FARTHEST_POINT) {
        return true;
    }
    is_far(lifts, lift, FARTHEST_LIFT)
}
