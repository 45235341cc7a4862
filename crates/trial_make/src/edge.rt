// One edge of a trial job: its draws, its corners, its record.
ghost use Rattle.std.specs.Prelude.{◌≡◌, ◌+◌, ◌<◌, ◌≤◌, length};
ghost use Rattle.std.proofs.lemmas.List.Edits.{sets};
ghost use Rattle.table.specs.Layout.{edges};
ghost use Rattle.records_write.specs.Encoding.{record_of};
ghost use Rattle.trial_jobs.specs.Trial.{after_draw, trial_size};
ghost use Rattle.trial_make.specs.laws.Edge.{give_dart, edge_drawn, corners_after};

use crate::draws::{after_draw, draw};
use records::records::MARK_IE;
use records_write::record::{Words, write_ends};
use table::layout::LONE;

// The corners of the eight vertices are eight words: darts rise, so the first dart that a vertex gets stays its smallest.

// Vertex v gets a dart, which names its corner if it is the first.
#[tactic(auto, unfolding(crate::specs::laws::Edge::give_dart))]
fn give_dart(corners: &mut [u16; 8], v: usize, dart: u16)
    requires { (v < 8) × (length corners.old ≡ 8) }
    ensures { corners.new ≡ give_dart corners.old v dart }
{
    if corners[v] < LONE {
        return;
    }
    corners[v] = dart;
}

// Draws edge e from state s on, writes its record, and gives its vertices their darts. The state after its draws.
pub fn write_edge(out: &mut [u8], corners: &mut [u16; 8], s: u32, e: u16) -> u32
    requires { (e < edges) × (trial_size e + 10 ≤ length out.old) × (length corners.old ≡ 8) }
    ensures { (result ≡ after_draw (after_draw (after_draw s)))
        × (out.new ≡ sets out.old (trial_size e) (record_of (edge_drawn corners.old s e)))
        × (corners.new ≡ corners_after corners.old s e) }
{
    let once = after_draw(s);
    let twice = after_draw(once);
    let thrice = after_draw(twice);
    let a = draw(8, once) as usize;
    let b = draw(8, twice) as usize;
    let turns = draw(3, thrice) as i16 - 1;
    let first = corners[a];
    let second = corners[b];
    let words = Words {
        name: e,
        first,
        second,
        turns,
        strip: 0,
    };
    write_ends(out, 32 + 10 * e as usize, MARK_IE, words);
    give_dart(corners, a, 2 * e);
    give_dart(corners, b, 2 * e + 1);
    thrice
}
