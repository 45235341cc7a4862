// The writes that put a dart into a vertex's cycle and take one out.
ghost use Rattle.std.specs.Prelude.{◌≡◌, ◌<◌, length};
ghost use Rattle.table.specs.Layout.{words, darts};
ghost use Rattle.edits.specs.Edge.{splice, cut, lesser, successor, unlink, link};
ghost use Rattle.edits.proofs.laws.Ready.{SpliceReady, CutReady, LinkReady, UnlinkReady};

use table::layout::{DARTS, ISOLATED, LEAVES, LONE, NOTHING, PREV, VERTEX};

// Puts x between p and d at vertex v, whose word becomes w.
fn splice(t: &mut [u16], x: usize, d: usize, p: usize, v: usize, w: u16)
    requires { SpliceReady t.old x d p v }
    ensures { t.new ≡ splice t.old x d p v w }
{
    t[x] = d as u16;
    t[PREV + d] = x as u16;
    t[p] = x as u16;
    t[PREV + x] = p as u16;
    t[LEAVES + x] = v as u16;
    t[VERTEX + v] = w;
}

// The smaller of a vertex's word and a dart.
fn lesser(w: u16, x: usize) -> u16
    requires { x < darts }
    ensures { result ≡ lesser w x }
{
    if x < w as usize {
        return x as u16;
    }
    w
}

// Puts dart x into corner c.
pub fn link(t: &mut [u16], x: usize, c: usize)
    requires { LinkReady t.old x c }
    ensures { t.new ≡ link t.old x c }
{
    if c < DARTS {
        let p = t[PREV + c] as usize;
        let v = t[LEAVES + c] as usize;
        let w = lesser(t[VERTEX + v], x);
        splice(t, x, c, p, v, w);
        return;
    }
    splice(t, x, x, x, c - LONE as usize, x as u16);
}

// Lets n come next after p, and takes x out.
fn cut(t: &mut [u16], x: usize, n: usize, p: usize)
    requires { CutReady t.old x n p }
    ensures { t.new ≡ cut t.old x n p }
{
    t[p] = n as u16;
    t[PREV + n] = p as u16;
    t[x] = NOTHING;
    t[PREV + x] = NOTHING;
    t[LEAVES + x] = NOTHING;
}

// The word of vertex v once dart x is out, where it was w.
fn successor(t: &[u16], v: usize, x: usize, w: u16) -> u16
    requires { (length t.now ≡ words) × (x < darts) }
    ensures { result ≡ successor t.now v x w }
{
    if w as usize != x {
        return w;
    }
    for d in x..DARTS {
        if t[LEAVES + d] as usize == v {
            return d as u16;
        }
    }
    ISOLATED
}

// Takes dart x out of its vertex's cycle.
pub fn unlink(t: &mut [u16], x: usize)
    requires { UnlinkReady t.old x }
    ensures { t.new ≡ unlink t.old x }
{
    let n = t[x] as usize;
    let p = t[PREV + x] as usize;
    let v = t[LEAVES + x] as usize;
    let w = t[VERTEX + v];
    cut(t, x, n, p);
    let s = successor(t, v, x, w);
    t[VERTEX + v] = s;
}
