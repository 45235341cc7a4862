// Blocks of 32 names. Most names of a small mesh are not live, and a block without a live edge is passed over as a whole. The loop over its
// words has a fixed length and no way out before its end, so that it is compiled to vector code.
ghost use Rattle.std.specs.Prelude.{◌≡◌, ◌<◌, length};
ghost use Rattle.table.specs.Layout.{words};
ghost use Rattle.table.specs.Reading.{Adds};
ghost use Rattle.table.specs.laws.Rotation.{Case};
ghost use Rattle.table.specs.laws.Blocks.{edge_blocks, DeadBlock};

use crate::layout::EDGE;
use crate::read::{Counter, Uncounted, read};

// The names in a block, and the darts of its edges.
pub const BLOCK: usize = 32;

pub const DART_BLOCK: usize = 64;

// How many blocks of edges there are, and of vertices.
pub const EDGE_BLOCKS: usize = 32;

pub const VERTEX_BLOCKS: usize = 16;

// Is no edge of block b live.
pub fn is_dead(t: &[u16], b: usize) -> bool
    requires { (length t.now ≡ words) × (b < edge_blocks) }
    ensures { Case result (DeadBlock t.now b) }
{
    is_dead_with(t, b, &mut Uncounted)
}

// The same, each word that is read counted: the words of the block's edges, or-ed together, are 0.
pub fn is_dead_with<C: Counter>(t: &[u16], b: usize, reads: &mut C) -> bool
    requires { (length t.now ≡ words) × (b < edge_blocks) }
    ensures { Case result (DeadBlock t.now b) × Adds C.shows reads.old reads.new 32 }
{
    let mut any: u16 = 0;
    for i in 0..BLOCK {
        any |= read(t, EDGE + (BLOCK * b + i), reads);
    }
    any == 0
}
