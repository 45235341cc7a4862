// The call for the listing: it checks the table and measures before it writes.
ghost use Rattle.std.specs.Prelude.{◌≡◌, length};
ghost use Rattle.tracing.specs.Call.{list_answer, list_out};

use crate::listing::write_listing;
use check_table::whole::is_good;
use table::answer::Refusal;
use tracing_walks::count::measure;

// Writes the listing to the front of `out`, and answers its number of words.
pub fn list(t: &[u16], out: &mut [u16]) -> Result<u32, Refusal>
    ensures { (result ≡ list_answer t.now (length out.old)) × (out.new ≡ list_out t.now out.old) }
{
    if !is_good(t) {
        return Err(Refusal::Torn);
    }
    let n = measure(t).words;
    if out.len() < n {
        return Err(Refusal::ShortSlice);
    }
    write_listing(t, out);
    Ok(n as u32)
}
