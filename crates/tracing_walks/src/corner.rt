// Corner words: dart d for the corner that it ends, 32,768+v for the corner of an isolated vertex v.
ghost use Rattle.std.specs.Prelude.{◌≡◌, true};
ghost use Rattle.table.specs.Good.{Good};
ghost use Rattle.table.specs.Rotation.{rotation};
ghost use Rattle.tracing.specs.Corner.{well_formed, present};

use table::layout::{DARTS, EDGE, ISOLATED, LONE, VERTEX, VERTICES};

// Is c a corner word, and not malformed.
pub fn is_corner(c: u16) -> bool
    ensures { result ≡ well_formed c }
{
    let n = c as usize;
    if n < DARTS {
        return true;
    }
    if c < LONE {
        return false;
    }
    let v = (c - LONE) as usize;
    v < VERTICES
}

// Is the corner c there.
pub fn is_present(t: &[u16], c: u16) -> bool
    requires { Good t.now × (well_formed c ≡ true) }
    ensures { result ≡ present (rotation t.now) c }
{
    let n = c as usize;
    if c < LONE {
        return t[EDGE + n / 2] != 0;
    }
    t[VERTEX + (c - LONE) as usize] == ISOLATED
}
