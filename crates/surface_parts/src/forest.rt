// The connected parts, found by pointers up from each vertex to a smaller one of its part, with the parity of their marks beside them.
ghost use Rattle.std.specs.Prelude.{◌≡◌, ◌<◌, length, replicate};
ghost use Rattle.table.specs.Layout.{vertices};
ghost use Rattle.table.specs.Good.{Good};
ghost use Rattle.surface_parts.specs.laws.Forest.{Shape, RootFound, Flattening, lift as lifted, lift_turn};
ghost use Rattle.surface_parts.specs.laws.Linking.{Taking, Taken, Labelled, Fresh};

use table::layout::{EDGE, EDGES, LEAVES, VERTICES};

// The root of a vertex, and the vertex's mark.
#[derive(Clone, Copy)]
pub struct Root {
    pub label: usize,
    pub mark: u8,
}

// Points v to its parent's parent.
fn lift(up: &mut [u16; VERTICES], turn: &mut [u8; VERTICES], v: usize)
    requires { Shape up.old turn.old × (v < vertices) }
    ensures { (up.new ≡ lifted up.old v) × (turn.new ≡ lift_turn up.old turn.old v) }
{
    let p = up[v] as usize;
    let q = up[p];
    let k = (turn[v] + turn[p]) % 2;
    up[v] = q;
    turn[v] = k;
}

// The root of v. The pointers on the way are shortened. A loop from pointer to pointer, and no range.
fn find(up: &mut [u16; VERTICES], turn: &mut [u8; VERTICES], v: usize) -> Root
    requires { Shape up.old turn.old × (v < vertices) }
    ensures { RootFound up.old turn.old v result.label result.mark up.new turn.new }
{
    let mut at = v;
    let mut mark: u8 = 0;
    loop {
        if up[at] as usize == at {
            return Root {
                label: at,
                mark: mark,
            };
        }
        lift(up, turn, at);
        mark = (mark + turn[at]) % 2;
        at = up[at] as usize;
    }
}

// Links the roots of the ends of edge e, if it is live.
fn take_edge(t: &[u16], up: &mut [u16; VERTICES], turn: &mut [u8; VERTICES], e: usize)
    requires { Taking t.now up.old turn.old e }
    ensures { Taken t.now e up.old turn.old up.new turn.new }
{
    if t[EDGE + e] == 0 {
        return;
    }
    let a = find(up, turn, t[LEAVES + 2 * e] as usize);
    let b = find(up, turn, t[LEAVES + (2 * e + 1)] as usize);
    let k = (t[EDGE + e] % 2) as u8;
    let shift = (a.mark + b.mark + k) % 2;
    let x = a.label;
    let y = b.label;
    if x == y {
        return;
    }
    if x < y {
        up[y] = x as u16;
        turn[y] = shift;
        return;
    }
    up[x] = y as u16;
    turn[x] = shift;
}

// Points each vertex to itself.
fn begin(up: &mut [u16; VERTICES])
    requires { length up.old ≡ vertices }
    ensures { Fresh vertices up.new }
{
    for v in 0..VERTICES {
        up[v] = v as u16;
    }
}

// Points each vertex to its root.
fn flatten(up: &mut [u16; VERTICES], turn: &mut [u8; VERTICES])
    requires { Shape up.old turn.old }
    ensures { Flattening up.old turn.old vertices up.new turn.new }
{
    for v in 0..VERTICES {
        lift(up, turn, v);
    }
}

// The label of each vertex, the smallest of its part, and the parity of its mark.
pub fn label_parts(t: &[u16], up: &mut [u16; VERTICES], turn: &mut [u8; VERTICES])
    requires { Good t.now × (length up.old ≡ vertices) × (turn.old ≡ replicate vertices 0) }
    ensures { Labelled t.now up.new turn.new }
{
    begin(up);
    for e in 0..EDGES {
        take_edge(t, up, turn, e);
    }
    flatten(up, turn);
}
