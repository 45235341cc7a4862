// The call for a ribbon's letters: it names its refusal in document 01's order, and measures before it writes.
ghost use Rattle.std.specs.Prelude.{◌≡◌, length};
ghost use Rattle.weave.specs.Calls.{letters_of, letters_out};

use crate::named::named_step;
use crate::ribbon::{letter_count, write_letters};
use table::answer::Refusal;

// Writes the letters of the ribbon through the step to the front of `out`, in the order of travel from it, and answers their number.
pub fn letters(t: &[u16], dart: u16, kind: u16, out: &mut [u8]) -> Result<u32, Refusal>
    ensures { (result ≡ letters_of t.now dart kind (length out.old)) × (out.new ≡ letters_out t.now dart kind out.old) }
{
    let s = named_step(t, dart, kind)?;
    let size = letter_count(t, s);
    if out.len() < size {
        return Err(Refusal::ShortSlice);
    }
    write_letters(t, out, s);
    Ok(size as u32)
}
