// One step of a walk, its corner and its mirror. A step is the word 2d+t: dart d with trace type t.
ghost use Rattle.std.specs.Prelude.{◌≡◌};
ghost use Rattle.table.specs.Rotation.{rotation};
ghost use Rattle.tracing.specs.Step.{around, step as step_of, corner as cornerOf, mirror as mirrorOf};
ghost use Rattle.tracing_walks.specs.laws.Stands.{Stands, LiveDart};

use table::layout::{EDGE, PREV};

// The step of type k just after dart d at its vertex, or just before it.
fn around(t: &[u16], k: u16, d: usize) -> u16
    requires { LiveDart t.now d }
    ensures { result ≡ around (rotation t.now) k d }
{
    let next = t[d];
    let prev = t[PREV + d];
    if k == 0 {
        return next * 2;
    }
    prev * 2 + 1
}

// The step after s.
pub fn step(t: &[u16], s: u16) -> u16
    requires { Stands t.now s }
    ensures { result ≡ step_of (rotation t.now) s }
{
    let d = (s / 2) as usize;
    let k = (s + t[EDGE + d / 2]) % 2;
    around(t, k, d + 1 - 2 * (d % 2))
}

// The other sense at the corner of s.
pub fn mirror(t: &[u16], s: u16) -> u16
    requires { Stands t.now s }
    ensures { result ≡ mirrorOf (rotation t.now) s }
{
    around(t, 1 - s % 2, (s / 2) as usize)
}

// The corner that step s meets.
pub fn corner(t: &[u16], s: u16) -> usize
    requires { Stands t.now s }
    ensures { result ≡ cornerOf (rotation t.now) s }
{
    let d = (s / 2) as usize;
    if s % 2 == 0 {
        return d;
    }
    t[d] as usize
}
