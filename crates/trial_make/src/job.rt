// A whole trial job, written to the front of a slice that is long enough.
ghost use Rattle.std.specs.Prelude.{◌≡◌, ◌≤◌, length};
ghost use Rattle.table.specs.Layout.{edges};
ghost use Rattle.table.specs.Output.{front};
ghost use Rattle.trial_jobs.specs.Trial.{trial_bytes, trial_size};
ghost use Rattle.trial_make.specs.laws.Making.{Vertices};

use crate::edge::write_edge;
use records::records::MARK_AV;
use records_write::record::write_words;
use table::layout::LONE;

// The records of the eight vertices. Each is isolated, and has its own corner.
fn write_vertices(out: &mut [u8], corners: &mut [u16; 8])
    requires { (32 ≤ length out.old) × (length corners.old ≡ 8) }
    ensures { Vertices out.old 8 out.new corners.new }
{
    for v in 0..8 {
        write_words(out, 4 * v as usize, MARK_AV, v);
        corners[v as usize] = LONE + v;
    }
}

// The records of the job.
pub fn write_job(out: &mut [u8], start: u32, n: u16)
    requires { (n ≤ edges) × (trial_size n ≤ length out.old) }
    ensures { out.new ≡ front (trial_bytes start n) out.old }
{
    let mut corners = [0u16; 8];
    write_vertices(out, &mut corners);
    let mut s = start;
    for e in 0..n {
        s = write_edge(out, &mut corners, s, e);
    }
}
