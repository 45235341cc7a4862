// V, E and F of each part, and its twisted edges, counted by label.
ghost use Rattle.std.specs.Prelude.{◌≡◌, ◌+◌, ◌<◌, replicate};
ghost use Rattle.table.specs.Layout.{vertices, edges, darts};
ghost use Rattle.surface_counts.specs.laws.Tally.{Keyed, WalkTally};
ghost use Rattle.surface_counts.specs.laws.Tallying.{Vertexing, Edging, Dartwise, Tallies, PartTally};
ghost use Rattle.surface.specs.Signed.{euler_of};

use table::layout::{DARTS, EDGE, EDGES, ISOLATED, LEAVES, NOTHING, VERTEX, VERTICES};
use tracing_walks::count::look;

// Vertex v, if it is live, and its empty walk, if it is isolated.
fn count_vertex(
    t: &[u16],
    up: &[u16; VERTICES],
    vs: &mut [u16; VERTICES],
    fs: &mut [u16; VERTICES],
    v: usize,
)
    requires { Vertexing t.now up.now v vs.old fs.old × (v < vertices) }
    ensures { Vertexing t.now up.now (v + 1) vs.new fs.new }
{
    let w = t[VERTEX + v];
    if w == NOTHING {
        return;
    }
    let k = up[v] as usize;
    vs[k] = vs[k] + 1;
    if w != ISOLATED {
        return;
    }
    fs[k] = fs[k] + 1;
}

fn count_vertices(
    t: &[u16],
    up: &[u16; VERTICES],
    vs: &mut [u16; VERTICES],
    fs: &mut [u16; VERTICES],
)
    requires { Vertexing t.now up.now 0 vs.old fs.old }
    ensures { Vertexing t.now up.now vertices vs.new fs.new }
{
    for v in 0..VERTICES {
        count_vertex(t, up, vs, fs, v);
    }
}

// Edge e, if it is live, and again if it is twisted.
fn count_edge(
    t: &[u16],
    up: &[u16; VERTICES],
    turn: &[u8; VERTICES],
    es: &mut [u16; VERTICES],
    odd: &mut [u16; VERTICES],
    e: usize,
)
    requires { Edging t.now up.now turn.now e es.old odd.old × (e < edges) }
    ensures { Edging t.now up.now turn.now (e + 1) es.new odd.new }
{
    let w = t[EDGE + e];
    if w == 0 {
        return;
    }
    let a = t[LEAVES + 2 * e] as usize;
    let b = t[LEAVES + (2 * e + 1)] as usize;
    let k = up[a] as usize;
    es[k] = es[k] + 1;
    if ((w % 2) as u8 + turn[a] + turn[b]) % 2 == 0 {
        return;
    }
    odd[k] = odd[k] + 1;
}

fn count_edges(
    t: &[u16],
    up: &[u16; VERTICES],
    turn: &[u8; VERTICES],
    es: &mut [u16; VERTICES],
    odd: &mut [u16; VERTICES],
)
    requires { Edging t.now up.now turn.now 0 es.old odd.old }
    ensures { Edging t.now up.now turn.now edges es.new odd.new }
{
    for e in 0..EDGES {
        count_edge(t, up, turn, es, odd, e);
    }
}

// The walk that starts at dart d, if one does.
fn count_walk(
    t: &[u16],
    up: &[u16; VERTICES],
    met: &mut [u8; DARTS],
    fs: &mut [u16; VERTICES],
    d: usize,
)
    requires { Dartwise t.now up.now d met.old fs.old × (d < darts) }
    ensures { Dartwise t.now up.now (d + 1) met.new fs.new }
{
    let Some(_) = look(t, met, d) else {
        return;
    };
    let k = up[t[LEAVES + d] as usize] as usize;
    fs[k] = fs[k] + 1;
}

fn count_walks(t: &[u16], up: &[u16; VERTICES], fs: &mut [u16; VERTICES])
    requires { Keyed t.now up.now × (fs.old ≡ replicate vertices 0) }
    ensures { WalkTally t.now darts fs.new }
{
    let mut met = [0u8; DARTS];
    for d in 0..DARTS {
        count_walk(t, up, &mut met, fs, d);
    }
}

// V-E+F.
pub fn euler(v: u16, e: u16, f: u16) -> i32
    ensures { result ≡ euler_of v e f }
{
    v as i32 - e as i32 + f as i32
}

// V, E, F and the twisted edges of each part, by its label.
pub fn tally_parts(
    t: &[u16],
    up: &[u16; VERTICES],
    turn: &[u8; VERTICES],
    vs: &mut [u16; VERTICES],
    es: &mut [u16; VERTICES],
    fs: &mut [u16; VERTICES],
    odd: &mut [u16; VERTICES],
)
    requires { Tallies t.now up.now turn.now vs.old es.old fs.old odd.old }
    ensures { PartTally t.now vs.new es.new fs.new odd.new }
{
    count_walks(t, up, fs);
    count_vertices(t, up, vs, fs);
    count_edges(t, up, turn, es, odd);
}
