// V, E, F, the number of parts and V-E+F of a good table.
ghost use Rattle.std.specs.Prelude.{◌≡◌, ◌*◌, ◌<◌};
ghost use Rattle.table.specs.Layout.{vertices, edges};
ghost use Rattle.table.specs.Good.{Good};
ghost use Rattle.table.specs.Rotation.{rotation, there?, live?};
ghost use Rattle.tracing.specs.Listing.{bit};
ghost use Rattle.surface.specs.Parts.{root?, parts};
ghost use Rattle.surface_counts.specs.laws.Tally.{Keyed};
ghost use Rattle.surface_calls.specs.laws.Mesh.{AddedUp, MeshCounts};

use surface_counts::tally::euler;
use surface_parts::forest::label_parts;
use table::layout::{EDGE, EDGES, NOTHING, VERTEX, VERTICES};
use tracing_walks::count::face_count;

#[derive(Clone, Copy)]
pub struct Mesh {
    pub vertices: u16,
    pub edges: u16,
    pub walks: u16,
    pub parts: u16,
    pub euler: i32,
}

// 1 if vertex v is live, else 0.
fn one_vertex(t: &[u16], v: usize) -> u16
    requires { Good t.now × (v < vertices) }
    ensures { result ≡ bit (there? t.now v) }
{
    if t[VERTEX + v] == NOTHING {
        return 0;
    }
    1
}

// 1 if edge e is live, else 0.
fn one_edge(t: &[u16], e: usize) -> u16
    requires { Good t.now × (e < edges) }
    ensures { result ≡ bit (live? t.now (2 * e)) }
{
    if t[EDGE + e] == 0 {
        return 0;
    }
    1
}

// 1 if vertex v is live and the smallest of its part, else 0.
fn one_root(t: &[u16], up: &[u16; VERTICES], v: usize) -> u16
    requires { Keyed t.now up.now × (v < vertices) }
    ensures { result ≡ bit (root? (rotation t.now) v) }
{
    if t[VERTEX + v] == NOTHING {
        return 0;
    }
    if up[v] as usize != v {
        return 0;
    }
    1
}

// V.
fn live_vertices(t: &[u16]) -> u16
    requires { Good t.now }
    ensures { AddedUp (there? t.now) vertices result }
{
    let mut n: u16 = 0;
    for v in 0..VERTICES {
        let k = one_vertex(t, v);
        n += k;
    }
    n
}

// E.
fn live_edges(t: &[u16]) -> u16
    requires { Good t.now }
    ensures { AddedUp (λ e. live? t.now (2 * e)) edges result }
{
    let mut n: u16 = 0;
    for e in 0..EDGES {
        let k = one_edge(t, e);
        n += k;
    }
    n
}

// The number of parts.
pub fn roots(t: &[u16], up: &[u16; VERTICES]) -> u16
    requires { Keyed t.now up.now }
    ensures { AddedUp (root? (rotation t.now)) vertices result }
{
    let mut n: u16 = 0;
    for v in 0..VERTICES {
        let k = one_root(t, up, v);
        n += k;
    }
    n
}

// The counts of the mesh.
pub fn measure_mesh(t: &[u16]) -> Mesh
    requires { Good t.now }
    ensures { MeshCounts (rotation t.now) result.vertices result.edges result.walks result.parts result.euler }
{
    let mut up = [0u16; VERTICES];
    let mut turn = [0u8; VERTICES];
    label_parts(t, &mut up, &mut turn);
    let p = roots(t, &up);
    let v = live_vertices(t);
    let e = live_edges(t);
    let f = face_count(t) as u16;
    let x = euler(v, e, f);
    Mesh {
        vertices: v,
        edges: e,
        walks: f,
        parts: p,
        euler: x,
    }
}
