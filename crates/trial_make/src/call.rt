// The call for a trial job: it names its refusal in document 02's order, and only then writes.
ghost use Rattle.std.specs.Prelude.{◌≡◌, length};
ghost use Rattle.trial_jobs.specs.Trial.{trial_answer, trial_out};

use crate::job::write_job;
use table::answer::Refusal;
use table::layout::EDGES;

// Writes the trial job of the two numbers to the front of `out`, and answers its number of bytes.
pub fn trial_job(start: u32, edges: u32, out: &mut [u8]) -> Result<u32, Refusal>
    ensures { (result ≡ trial_answer edges (length out.old)) × (out.new ≡ trial_out start edges out.old) }
{
    let size = 32 + 10 * edges as usize;
    if EDGES < edges as usize {
        return Err(Refusal::ManyEdges);
    }
    if out.len() < size {
        return Err(Refusal::ShortSlice);
    }
    write_job(out, start, edges as u16);
    Ok(size as u32)
}
