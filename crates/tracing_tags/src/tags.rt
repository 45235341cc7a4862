// The faces traced once: how many there are, and a tag for the corner of each live dart. A tag is 2a+t: a the start of the listed walk
// that meets the corner, t its type there; NOTHING where no walk has met it yet.
ghost use Rattle.std.specs.Prelude.{◌≡◌, ◌+◌, ◌*◌, ◌<◌, length};
ghost use Rattle.table.specs.Layout.{darts};
ghost use Rattle.table.specs.Good.{Good};
ghost use Rattle.table.specs.Rotation.{rotation};
ghost use Rattle.table.specs.laws.Blocks.{edge_blocks};
ghost use Rattle.tracing.specs.Walk.{walk};
ghost use Rattle.tracing.specs.Listing.{face_count};
ghost use Rattle.tracing_walks.specs.laws.Stands.{Stands};
ghost use Rattle.tracing_tags.specs.laws.Tags.{untagged, tagged, Tagged, TaggedFrom, TagCounting, Tags};

use table::block::{DART_BLOCK, EDGE_BLOCKS, is_dead};
use table::layout::{DARTS, EDGE, NOTHING};
use tracing_walks::count::isolated;
use tracing_walks::step::corner;
use tracing_walks::walk::walk;

// Tags the corners of the walk from step s.
fn tag_walk(t: &[u16], tags: &mut [u16; DARTS], s: u16)
    requires { Stands t.now s × (length tags.old ≡ darts) }
    ensures { tags.new ≡ tagged (rotation t.now) tags.old s (walk (rotation t.now) s) }
{
    for at in walk(t, s) {
        let c = corner(t, at);
        tags[c] = s + at % 2;
    }
}

// Tags the corners of the walk that starts at dart d, if one does. The number of walks that start there.
fn tag_from(t: &[u16], tags: &mut [u16; DARTS], d: usize) -> u32
    requires { Tagged t.now d tags.old × (d < darts) }
    ensures { TaggedFrom t.now d result tags.new }
{
    if t[EDGE + d / 2] == 0 {
        return 0;
    }
    if tags[d] != NOTHING {
        return 0;
    }
    tag_walk(t, tags, 2 * (d as u16));
    1
}

// Tags the corners of the walks that start at a dart of block b. The number of walks, with those that start below it.
fn tag_in(t: &[u16], tags: &mut [u16; DARTS], b: usize, before: u32) -> u32
    requires { (b < edge_blocks) × TagCounting t.now (64 * b) before tags.old }
    ensures { TagCounting t.now (64 * b + 64) result tags.new }
{
    let mut walks = before;
    for d in DART_BLOCK * b..DART_BLOCK * b + DART_BLOCK {
        walks += tag_from(t, tags, d);
    }
    walks
}

// Tags the corners of all live darts, where none is tagged yet. The face count. No walk starts in a block without a live edge.
pub fn tag_faces(t: &[u16], tags: &mut [u16; DARTS]) -> u32
    requires { Good t.now × (tags.old ≡ untagged) }
    ensures { (result ≡ face_count (rotation t.now)) × Tags t.now tags.new }
{
    let mut walks: u32 = 0;
    for b in 0..EDGE_BLOCKS {
        if !is_dead(t, b) {
            walks = tag_in(t, tags, b, walks);
        }
    }
    walks + isolated(t)
}
