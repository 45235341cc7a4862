// The listing, written to a lent slice that is long enough.
ghost use Rattle.std.specs.Prelude.{◌≡◌, ◌+◌, ◌≤◌, length};
ghost use Rattle.std.proofs.lemmas.List.Edits.{sets};
ghost use Rattle.table.specs.Good.{Good};
ghost use Rattle.table.specs.Output.{front};
ghost use Rattle.table.specs.Rotation.{rotation};
ghost use Rattle.tracing.specs.Walk.{walk};
ghost use Rattle.tracing.specs.Listing.{listing};
ghost use Rattle.tracing_walks.specs.laws.Stands.{Stands};
ghost use Rattle.tracing_listing.specs.laws.Writing.{RoomAt, Entered, RoomLone, EnteredLone, walks_text, lones_text, WroteWalks};
ghost use Rattle.table.specs.Layout.{darts, vertices};

use table::layout::{DARTS, ISOLATED, LONE, VERTEX, VERTICES};
use tracing_walks::count::look;
use tracing_walks::walk::walk;

// The steps of the walk from s, from index `start` on.
fn write_walk(t: &[u16], out: &mut [u16], start: usize, s: u16)
    requires { Stands t.now s × (start + length (walk (rotation t.now) s) ≤ length out.old) }
    ensures { out.new ≡ sets out.old start (walk (rotation t.now) s) }
{
    for (n, at) in walk(t, s).enumerate() {
        out[start + n] = at;
    }
}

// The walk that starts at dart d, if one does, from index `at` on. The index after it.
fn write_from(t: &[u16], met: &mut [u8; DARTS], out: &mut [u16], at: usize, d: usize) -> usize
    requires { RoomAt t.now met.old out.old at d }
    ensures { Entered t.now met.old out.old at d result met.new out.new }
{
    let Some(steps) = look(t, met, d) else {
        return at;
    };
    out[at] = steps as u16;
    write_walk(t, out, at + 1, 2 * (d as u16));
    at + 1 + steps
}

// The empty walk at vertex v, if it is isolated, from index `at` on. The index after it.
fn write_lone(t: &[u16], out: &mut [u16], at: usize, v: usize) -> usize
    requires { RoomLone t.now out.old at v }
    ensures { EnteredLone t.now out.old at v result out.new }
{
    if t[VERTEX + v] != ISOLATED {
        return at;
    }
    out[at] = 0;
    out[at + 1] = LONE + (v as u16);
    at + 2
}

// The walks that start at a dart, upward, from the front of `out`. The index after them.
fn write_walks(t: &[u16], out: &mut [u16]) -> usize
    requires { Good t.now × (length (walks_text (rotation t.now) darts) ≤ length out.old) }
    ensures { WroteWalks t.now out.old result out.new }
{
    let mut met = [0u8; DARTS];
    let mut at: usize = 0;
    for d in 0..DARTS {
        at = write_from(t, &mut met, out, at, d);
    }
    at
}

// The empty walks, upward, from index `start` on.
fn write_lones(t: &[u16], out: &mut [u16], start: usize)
    requires { Good t.now × (start + length (lones_text (rotation t.now) vertices) ≤ length out.old) }
    ensures { out.new ≡ sets out.old start (lones_text (rotation t.now) vertices) }
{
    let mut at = start;
    for v in 0..VERTICES {
        at = write_lone(t, out, at, v);
    }
}

// The listing, at the front of a slice that is long enough. The rest keeps its words.
pub fn write_listing(t: &[u16], out: &mut [u16])
    requires { Good t.now × (length (listing (rotation t.now)) ≤ length out.old) }
    ensures { out.new ≡ front (listing (rotation t.now)) out.old }
{
    let at = write_walks(t, out);
    write_lones(t, out, at);
}
