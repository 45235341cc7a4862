// The listed walks counted: how many they are, and how many words their listing has.
ghost use Rattle.std.specs.Prelude.{◌≡◌, ◌+◌, ◌*◌, ◌<◌, length};
ghost use Rattle.table.specs.Layout.{darts, vertices};
ghost use Rattle.table.specs.Good.{Good};
ghost use Rattle.table.specs.Rotation.{rotation};
ghost use Rattle.table.specs.laws.Blocks.{edge_blocks};
ghost use Rattle.tracing.specs.Listing.{face_count};
ghost use Rattle.tracing_walks.specs.laws.Stands.{Stands};
ghost use Rattle.tracing_walks.specs.laws.Size.{Marked, Looked, LookReady, Lone, WalkCounting, Measured};

use crate::step::corner;
use crate::walk::walk;
use table::block::{DART_BLOCK, EDGE_BLOCKS, is_dead};
use table::layout::{DARTS, EDGE, ISOLATED, VERTEX, VERTICES};

// So many walks, and so many words of their listing.
#[derive(Clone, Copy)]
pub struct Size {
    pub walks: u32,
    pub words: usize,
}

// Marks the corners of the walk from step s, and counts its steps. Marks are bytes: what is said of them is said of whatever bytes a caller lends.
pub fn mark_walk(t: &[u16], met: &mut [u8; DARTS], s: u16) -> usize
    requires { Stands t.now s × (length met.old ≡ darts) }
    ensures { Marked t.now s met.old result met.new }
{
    let mut n: usize = 0;
    for at in walk(t, s) {
        let c = corner(t, at);
        met[c] = 1;
        n += 1;
    }
    n
}

// The number of steps of the walk that starts at dart d, if one does: its corner has not been met. Marks its corners.
pub fn look(t: &[u16], met: &mut [u8; DARTS], d: usize) -> Option<usize>
    requires { LookReady t.now met.old d }
    ensures { Looked t.now d met.old result met.new }
{
    if t[EDGE + d / 2] == 0 {
        return None;
    }
    if met[d] != 0 {
        return None;
    }
    Some(mark_walk(t, met, 2 * (d as u16)))
}

// The number of isolated vertices.
pub fn isolated(t: &[u16]) -> u32
    requires { Good t.now }
    ensures { Lone t.now vertices result }
{
    let mut n: u32 = 0;
    for v in 0..VERTICES {
        if t[VERTEX + v] == ISOLATED {
            n += 1;
        }
    }
    n
}

// The walks that start at a dart of block b, counted on.
fn measure_in(t: &[u16], met: &mut [u8; DARTS], b: usize, before: Size) -> Size
    requires { (b < edge_blocks) × WalkCounting t.now (64 * b) before.walks before.words met.old }
    ensures { WalkCounting t.now (64 * b + 64) result.walks result.words met.new }
{
    let mut walks = before.walks;
    let mut words = before.words;
    for d in DART_BLOCK * b..DART_BLOCK * b + DART_BLOCK {
        if let Some(steps) = look(t, met, d) {
            walks += 1;
            words += steps + 1;
        }
    }
    Size {
        walks: walks,
        words: words,
    }
}

// How many walks are listed, and how many words their listing has. No walk starts in a block without a live edge.
pub fn measure(t: &[u16]) -> Size
    requires { Good t.now }
    ensures { Measured t.now result }
{
    let mut met = [0u8; DARTS];
    let mut size = Size { walks: 0, words: 0 };
    for b in 0..EDGE_BLOCKS {
        if !is_dead(t, b) {
            size = measure_in(t, &mut met, b, size);
        }
    }
    let alone = isolated(t);
    Size {
        walks: size.walks + alone,
        words: size.words + 2 * (alone as usize),
    }
}

// The face count.
pub fn face_count(t: &[u16]) -> u32
    requires { Good t.now }
    ensures { result ≡ face_count (rotation t.now) }
{
    measure(t).walks
}
