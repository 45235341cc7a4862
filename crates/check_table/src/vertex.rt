// The rules that a vertex's word keeps, once each dart keeps its own. The darts of each cycle are counted and not marked: the sum over the
// vertices is the number of live darts exactly if each vertex has one cycle.
ghost use Rattle.std.specs.Prelude.{◌+◌, ◌*◌, ◌<◌};
ghost use Rattle.table.specs.Layout.{darts, vertices, Live};
ghost use Rattle.table.specs.Reading.{Adds};
ghost use Rattle.table.specs.laws.Darts.{Ruled};
ghost use Rattle.table.specs.laws.Cycle.{CycleSays};
ghost use Rattle.table.specs.laws.Vertices.{VertexSays, Summed, VerticesTo, VerticesSay};
ghost use Rattle.table.specs.laws.Blocks.{vertex_blocks};
ghost use Rattle.check_reads.specs.Reads.{cycle_test, vertex_tests, vertex_in, vertex_block, reads_of, reads_below};

use crate::block::is_loose;
use table::block::{BLOCK, VERTEX_BLOCKS};
use table::layout::{DARTS, ISOLATED, LEAVES, NOTHING, VERTEX, WORDS};
use table::read::{Counter, read};

// The number of darts on the cycle of w, or none where a smaller dart is on it.
fn cycle<C: Counter>(t: &[u16; WORDS], w: usize, reads: &mut C) -> Option<usize>
    requires { Ruled t.now darts × Live t.now w }
    ensures { CycleSays t.now w result × Adds C.shows reads.old reads.new (cycle_test t.now w).reads }
{
    let mut d = read(t, w, reads) as usize;
    let mut n: usize = 1;
    // From dart to dart, and not over a range: `while`.
    while d != w {
        if d < w {
            return None;
        }
        d = read(t, d, reads) as usize;
        n += 1;
    }
    Some(n)
}

// The number of darts on the cycle that v's word leads.
fn led_darts<C: Counter>(t: &[u16; WORDS], v: usize, reads: &mut C) -> Option<usize>
    requires { Ruled t.now darts × (v < vertices) }
    ensures { VertexSays t.now v result × Adds C.shows reads.old reads.new (reads_of (vertex_tests t.now v)) }
{
    let word = read(t, VERTEX + v, reads);
    if word == NOTHING {
        return Some(0);
    }
    if word == ISOLATED {
        return Some(0);
    }
    let w = word as usize;
    if DARTS <= w {
        return None;
    }
    if read(t, LEAVES + w, reads) as usize != v {
        return None;
    }
    cycle(t, w, reads)
}

// The number of darts on the cycles that the vertices up to the end of block b lead, of which n are led below it.
fn led_in<C: Counter>(t: &[u16; WORDS], b: usize, n: usize, reads: &mut C) -> Option<usize>
    requires { Ruled t.now darts × (b < vertex_blocks) × Summed t.now n (32 * b) }
    ensures { VerticesTo t.now (32 * b + 32) result × Adds C.shows reads.old reads.new (reads_below (vertex_in t.now b) 32) }
{
    let from = BLOCK * b;
    let mut led = n;
    for v in from..from + BLOCK {
        led += led_darts(t, v, reads)?;
    }
    Some(led)
}

// The number of darts on the cycles that the vertices' words lead.
pub fn all_led_darts<C: Counter>(t: &[u16; WORDS], reads: &mut C) -> Option<usize>
    requires { Ruled t.now darts }
    ensures { VerticesSay t.now result × Adds C.shows reads.old reads.new (reads_below (vertex_block t.now) 16) }
{
    let mut n: usize = 0;
    for b in 0..VERTEX_BLOCKS {
        if !is_loose(t, b, reads) {
            n = led_in(t, b, n, reads)?;
        }
    }
    Some(n)
}
