// The lengths: an edge has one exactly if it is live. One loop with no way out before its end, so that it is compiled to vector code.
ghost use Rattle.std.specs.Prelude.{ℕ, ◌+◌, ◌*◌, ◌<◌};
ghost use Rattle.table.specs.Layout.{edges};
ghost use Rattle.table.specs.Reading.{Adds};
ghost use Rattle.table.specs.Good.{LengthRule};
ghost use Rattle.table.specs.laws.Rotation.{Case};

use table::layout::{EDGE, EDGES, LENGTH, WORDS};
use table::read::{Counter, read};

// Does every edge have a length exactly if it is live.
pub fn lengths_fit<C: Counter>(t: &[u16; WORDS], reads: &mut C) -> bool
    ensures { Case result ((e : ℕ) → e < edges → LengthRule t.now e) × Adds C.shows reads.old reads.new (2 * edges) }
{
    let mut odd: u16 = 0;
    for e in 0..EDGES {
        let w = read(t, EDGE + e, reads);
        let l = read(t, LENGTH + e, reads);
        odd |= ((w == 0) != (l == 0)) as u16;
    }
    odd == 0
}
