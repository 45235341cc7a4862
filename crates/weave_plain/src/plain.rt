// Whether a weave is plain: the listed ribbons, each walked once to mark its corners and once for its hands.
ghost use Rattle.std.specs.Prelude.{◌≡◌, ◌+◌, ◌*◌, ◌<◌};
ghost use Rattle.table.specs.Good.{Good};
ghost use Rattle.table.specs.laws.Blocks.{edge_blocks};
ghost use Rattle.tracing_walks.specs.laws.Size.{LookReady};
ghost use Rattle.weave.specs.Letters.{plain};
ghost use Rattle.weave_plain.specs.laws.Plain.{Judged, Judging, JudgedTo};

use crate::hands::is_alternating;
use table::block::{DART_BLOCK, EDGE_BLOCKS, is_dead};
use table::layout::DARTS;
use tracing_walks::count::look;

// Does the ribbon that is listed from dart d on alternate, if there is one. Marks its corners.
fn alternates_from(t: &[u16], met: &mut [u8; DARTS], d: usize) -> bool
    requires { LookReady t.now met.old d }
    ensures { Judged t.now d met.old result met.new }
{
    match look(t, met, d) {
        None => true,
        Some(_) => is_alternating(t, 2 * (d as u16)),
    }
}

// Do the ribbons that are listed from the darts of block b on alternate, as those from the darts below it do. Marks their corners.
fn alternate_in(t: &[u16], met: &mut [u8; DARTS], b: usize) -> bool
    requires { (b < edge_blocks) × Judging t.now (64 * b) met.old }
    ensures { JudgedTo t.now (64 * b + 64) result met.new }
{
    let from = DART_BLOCK * b;
    for d in from..from + DART_BLOCK {
        if !alternates_from(t, met, d) {
            return false;
        }
    }
    true
}

// Do all listed ribbons alternate. None is listed from a block without a live edge on.
pub fn is_plain(t: &[u16]) -> bool
    requires { Good t.now }
    ensures { result ≡ plain t.now }
{
    let mut met = [0u8; DARTS];
    for b in 0..EDGE_BLOCKS {
        if !is_dead(t, b) && !alternate_in(t, &mut met, b) {
            return false;
        }
    }
    true
}
