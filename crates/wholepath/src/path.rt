// The call for the whole path: it measures and tests everything before it writes.
ghost use Rattle.std.specs.Prelude.{◌≡◌, length};
ghost use Rattle.tracing_walks.specs.laws.Stands.{Stands};
ghost use Rattle.wholepath.specs.WholePath.{whole_along, whole_answer, whole_forms_out, whole_coords_out, whole_remainders_out};
ghost use Rattle.wholepath_writing.specs.laws.Written.{out};
ghost use Rattle.wholepath.specs.laws.WholePath.{Left};

use crate::survey::survey_from;
use floatpath::path::{LIFTS, POINTS};
use table::answer::Refusal;
use weave_letters::named::named_step;
use wholepath_writing::writing::write_path;

// The number of pieces of the path from step s, or why it is declined, with so many places for its forms, its coordinates and its remainders.
fn path_size(
    t: &[u16],
    points: &[i32],
    lifts: &[i32],
    forms: usize,
    coords: usize,
    remainders: usize,
    s: u16,
) -> Result<u32, Refusal>
    requires { Stands t.now s }
    ensures { result ≡ whole_along t.now points.now lifts.now forms coords remainders s }
{
    if points.len() < POINTS {
        return Err(Refusal::ShortSlice);
    }
    if lifts.len() < LIFTS {
        return Err(Refusal::ShortSlice);
    }
    let seen = survey_from(t, points, lifts, s);
    let pieces = seen.pieces + 1;
    let words = 3 * pieces;
    if forms < pieces {
        return Err(Refusal::ShortSlice);
    }
    if coords < words {
        return Err(Refusal::ShortSlice);
    }
    if remainders < words {
        return Err(Refusal::ShortSlice);
    }
    if seen.far {
        return Err(Refusal::Far);
    }
    Ok(pieces as u32)
}

// Writes the path from step s, unless it is declined.
fn path_from(
    t: &[u16],
    points: &[i32],
    lifts: &[i32],
    forms: &mut [u16],
    coords: &mut [i32],
    remainders: &mut [u16],
    s: u16,
) -> Result<u32, Refusal>
    requires { Stands t.now s }
    ensures { Left t.now points.now lifts.now s
        (out forms.old coords.old remainders.old) result (out forms.new coords.new remainders.new) }
{
    let pieces = path_size(
        t,
        points,
        lifts,
        forms.len(),
        coords.len(),
        remainders.len(),
        s,
    )?;
    write_path(t, points, lifts, forms, coords, remainders, s);
    Ok(pieces)
}

// Writes the whole path of the ribbon through the step of dart and type: for each piece a word, three coordinates and their three remainders. Answers the number of pieces.
pub fn whole_path(
    t: &[u16],
    dart: u16,
    kind: u16,
    points: &[i32],
    lifts: &[i32],
    forms: &mut [u16],
    coords: &mut [i32],
    remainders: &mut [u16],
) -> Result<u32, Refusal>
    ensures { (result ≡ whole_answer t.now dart kind points.now lifts.now
        (length forms.old) (length coords.old) (length remainders.old))
        × (forms.new ≡ whole_forms_out t.now dart kind points.now lifts.now forms.old coords.old remainders.old)
        × (coords.new ≡ whole_coords_out t.now dart kind points.now lifts.now forms.old coords.old remainders.old)
        × (remainders.new ≡ whole_remainders_out t.now dart kind points.now lifts.now
        forms.old coords.old remainders.old) }
{
    let s = named_step(t, dart, kind)?;
    path_from(t, points, lifts, forms, coords, remainders, s)
}
