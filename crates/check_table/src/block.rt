// Blocks of names that are not in use: each keeps its rules as a whole. Like `is_dead`, the loops have no way out before their end.
ghost use Rattle.std.specs.Prelude.{◌+◌, ◌<◌, ◌≤◌};
ghost use Rattle.table.specs.Layout.{words};
ghost use Rattle.table.specs.Reading.{Adds};
ghost use Rattle.table.specs.laws.Rotation.{Case};
ghost use Rattle.table.specs.laws.Blocks.{edge_blocks, vertex_blocks, Blank, LooseBlock};
ghost use Rattle.check_reads.specs.Reads.{idle_tests};
ghost use Rattle.check_reads.proofs.laws.Tests.{Told};

use table::block::{BLOCK, DART_BLOCK, is_dead_with};
use table::layout::{EDGE, ISOLATED, LEAVES, NOTHING, PREV, VERTEX, WORDS};
use table::read::{Counter, read};

// Are the 64 words from index `from` on, one kind of word of a block's darts, all 65,535: and-ed together, they come to that.
fn is_blank<C: Counter>(t: &[u16; WORDS], from: usize, reads: &mut C) -> bool
    requires { from + 64 ≤ words }
    ensures { Case result (Blank t.now from) × Adds C.shows reads.old reads.new 64 }
{
    let mut all = NOTHING;
    for i in 0..DART_BLOCK {
        all &= read(t, from + i, reads);
    }
    all == NOTHING
}

// Is no edge of block b live, and are the words of its darts 65,535.
pub fn is_idle<C: Counter>(t: &[u16; WORDS], b: usize, reads: &mut C) -> bool
    requires { b < edge_blocks }
    ensures { Told C.shows (idle_tests t.now b) result reads.old reads.new }
{
    if !is_dead_with(t, b, reads) {
        return false;
    }
    let from = DART_BLOCK * b;
    if !is_blank(t, from, reads) {
        return false;
    }
    if !is_blank(t, PREV + from, reads) {
        return false;
    }
    is_blank(t, LEAVES + from, reads)
}

// Does no vertex of block b lead a cycle: each is not live or isolated, exactly if their words, and-ed together, come to 65,534 or more.
pub fn is_loose<C: Counter>(t: &[u16; WORDS], b: usize, reads: &mut C) -> bool
    requires { b < vertex_blocks }
    ensures { Case result (LooseBlock t.now b) × Adds C.shows reads.old reads.new 32 }
{
    let mut all = NOTHING;
    for i in 0..BLOCK {
        all &= read(t, VERTEX + (BLOCK * b + i), reads);
    }
    ISOLATED <= all
}
