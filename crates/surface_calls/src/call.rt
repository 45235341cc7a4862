// The calls for the counts: each names its refusal in document 01's order, and measures before it writes.
ghost use Rattle.std.specs.Prelude.{◌≤◌, ◌≡◌, length};
ghost use Rattle.std.proofs.lemmas.List.Edits.{sets};
ghost use Rattle.surface.specs.Calls.{five_words, counts_answer, counts_out, parts_answer, parts_out};

use crate::mesh::{measure_mesh, roots};
use crate::rows::labelled_rows;
use check_table::whole::is_good;
use surface_parts::forest::label_parts;
use table::answer::Refusal;
use table::layout::VERTICES;

// The five counts, as words.
fn write_five(out: &mut [i32], v: u16, e: u16, f: u16, p: u16, x: i32)
    requires { 5 ≤ length out.old }
    ensures { out.new ≡ sets out.old 0 (five_words v e f p x) }
{
    out[0] = v as i32;
    out[1] = e as i32;
    out[2] = f as i32;
    out[3] = p as i32;
    out[4] = x;
}

// Writes V, E, F, the number of parts and the Euler number to the front of `out`, and answers their number, five.
pub fn counts(t: &[u16], out: &mut [i32]) -> Result<u32, Refusal>
    ensures { (result ≡ counts_answer t.now (length out.old)) × (out.new ≡ counts_out t.now out.old) }
{
    if !is_good(t) {
        return Err(Refusal::Torn);
    }
    if out.len() < 5 {
        return Err(Refusal::ShortSlice);
    }
    let m = measure_mesh(t);
    let euler = m.euler;
    write_five(out, m.vertices, m.edges, m.walks, m.parts, euler);
    Ok(5)
}

// Writes six words for each part to the front of `out`, upward, and answers their number.
pub fn parts(t: &[u16], out: &mut [i32]) -> Result<u32, Refusal>
    ensures { (result ≡ parts_answer t.now (length out.old)) × (out.new ≡ parts_out t.now out.old) }
{
    if !is_good(t) {
        return Err(Refusal::Torn);
    }
    let mut up = [0u16; VERTICES];
    let mut turn = [0u8; VERTICES];
    label_parts(t, &mut up, &mut turn);
    let n = 6 * roots(t, &up) as usize;
    if out.len() < n {
        return Err(Refusal::ShortSlice);
    }
    labelled_rows(t, &up, &turn, out);
    Ok(n as u32)
}
