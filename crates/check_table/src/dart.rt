// The rules that a dart's own words keep.
ghost use Rattle.std.specs.Prelude.{◌≡◌, ◌+◌, ◌*◌, ◌<◌};
ghost use Rattle.table.specs.Layout.{darts, edge_word, edge_of};
ghost use Rattle.table.specs.Reading.{Adds};
ghost use Rattle.table.specs.laws.Darts.{RuledBelow, DartsTo, DartsSay};
ghost use Rattle.table.specs.laws.Blocks.{edge_blocks};
ghost use Rattle.check_reads.specs.Reads.{bare_tests, linked_tests, dart_tests, edge_in, edge_block, reads_below};
ghost use Rattle.check_reads.proofs.laws.Tests.{Told};

use crate::block::is_idle;
use table::block::{BLOCK, EDGE_BLOCKS};
use table::layout::{DARTS, EDGE, EDGE_WORD_MAX, LEAVES, NOTHING, PREV, VERTICES, WORDS};
use table::read::{Counter, read};

// Are the three words of a dart that is not live 65,535.
fn is_bare<C: Counter>(t: &[u16; WORDS], d: usize, reads: &mut C) -> bool
    requires { d < darts }
    ensures { Told C.shows (bare_tests t.now d) result reads.old reads.new }
{
    if read(t, d, reads) != NOTHING {
        return false;
    }
    if read(t, PREV + d, reads) != NOTHING {
        return false;
    }
    if read(t, LEAVES + d, reads) != NOTHING {
        return false;
    }
    true
}

// Does a live dart leave a vertex, and does "previous" undo "next" at it, at one vertex. If so for all darts, "next" undoes "previous" as well.
fn is_linked<C: Counter>(t: &[u16; WORDS], d: usize, reads: &mut C) -> bool
    requires { d < darts }
    ensures { Told C.shows (linked_tests t.now d) result reads.old reads.new }
{
    let v = read(t, LEAVES + d, reads) as usize;
    if VERTICES <= v {
        return false;
    }
    let n = read(t, d, reads) as usize;
    if DARTS <= n {
        return false;
    }
    if read(t, PREV + n, reads) as usize != d {
        return false;
    }
    if read(t, LEAVES + n, reads) as usize != v {
        return false;
    }
    true
}

// Does dart d keep its rules, by what its edge's word w says.
fn keeps_rule<C: Counter>(t: &[u16; WORDS], d: usize, w: u16, reads: &mut C) -> bool
    requires { (d < darts) × (w ≡ edge_word t.now (edge_of d)) }
    ensures { Told C.shows (dart_tests t.now d) result reads.old reads.new }
{
    if w == 0 {
        return is_bare(t, d, reads);
    }
    if EDGE_WORD_MAX < w {
        return false;
    }
    is_linked(t, d, reads)
}

// The number of live darts up to the end of block b, of which n are below it, if each dart of the block keeps its rules.
fn live_in<C: Counter>(t: &[u16; WORDS], b: usize, n: usize, reads: &mut C) -> Option<usize>
    requires { (b < edge_blocks) × RuledBelow t.now n (64 * b) }
    ensures { DartsTo t.now (64 * b + 64) result × Adds C.shows reads.old reads.new (reads_below (edge_in t.now b) 32) }
{
    let from = BLOCK * b;
    let mut live = n;
    for e in from..from + BLOCK {
        let w = read(t, EDGE + e, reads);
        if !keeps_rule(t, 2 * e, w, reads) {
            return None;
        }
        if !keeps_rule(t, 2 * e + 1, w, reads) {
            return None;
        }
        if w != 0 {
            live += 2;
        }
    }
    Some(live)
}

// The number of live darts, if each dart keeps its rules.
pub fn live_darts<C: Counter>(t: &[u16; WORDS], reads: &mut C) -> Option<usize>
    ensures { DartsSay t.now result × Adds C.shows reads.old reads.new (reads_below (edge_block t.now) 32) }
{
    let mut n: usize = 0;
    for b in 0..EDGE_BLOCKS {
        if !is_idle(t, b, reads) {
            n = live_in(t, b, n, reads)?;
        }
    }
    Some(n)
}
