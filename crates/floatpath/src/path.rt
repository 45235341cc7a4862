// The call for the float path: it measures and tests everything before it writes.
ghost use Rattle.std.specs.Prelude.{◌≡◌, length};
ghost use Rattle.tracing_walks.specs.laws.Stands.{Stands};
ghost use Rattle.floatpath.specs.PathCall.{path_along, path_answer, forms_out, coords_out};
ghost use Rattle.floatpath.specs.laws.PathCall.{Left};

use crate::survey::survey_from;
use crate::writing::write_path;
use table::answer::Refusal;
use weave_letters::named::named_step;

// Three words for each vertex, and three for each edge.
pub const POINTS: usize = 1536;

pub const LIFTS: usize = 3072;

// The number of pieces of the path from step s, or why it is declined, with so many places for its words and its floats.
fn path_size(
    t: &[u16],
    points: &[i32],
    lifts: &[i32],
    forms: usize,
    coords: usize,
    s: u16,
) -> Result<u32, Refusal>
    requires { Stands t.now s }
    ensures { result ≡ path_along t.now points.now lifts.now forms coords s }
{
    if points.len() < POINTS {
        return Err(Refusal::ShortSlice);
    }
    if lifts.len() < LIFTS {
        return Err(Refusal::ShortSlice);
    }
    let seen = survey_from(t, points, lifts, s);
    let pieces = seen.steps + 1;
    if forms < pieces {
        return Err(Refusal::ShortSlice);
    }
    if coords < 3 * pieces {
        return Err(Refusal::ShortSlice);
    }
    if seen.many {
        return Err(Refusal::ManyTurns);
    }
    if seen.far {
        return Err(Refusal::Far);
    }
    Ok(pieces as u32)
}

// Writes the path from step s, unless it is declined.
fn path_from(
    t: &[u16],
    points: &[i32],
    lifts: &[i32],
    forms: &mut [u16],
    coords: &mut [f32],
    s: u16,
) -> Result<u32, Refusal>
    requires { Stands t.now s }
    ensures { Left t.now points.now lifts.now s forms.old coords.old result forms.new coords.new }
{
    let pieces = path_size(t, points, lifts, forms.len(), coords.len(), s)?;
    write_path(t, points, lifts, forms, coords, s);
    Ok(pieces)
}

// Writes the float path of the ribbon through the step of dart and type: a word for each piece, and three floats for each. Answers the number of pieces.
pub fn float_path(
    t: &[u16],
    dart: u16,
    kind: u16,
    points: &[i32],
    lifts: &[i32],
    forms: &mut [u16],
    coords: &mut [f32],
) -> Result<u32, Refusal>
    ensures { (result ≡ path_answer t.now dart kind points.now lifts.now (length forms.old) (length coords.old))
        × (forms.new ≡ forms_out t.now dart kind points.now lifts.now forms.old coords.old)
        × (coords.new ≡ coords_out t.now dart kind points.now lifts.now forms.old coords.old) }
{
    let s = named_step(t, dart, kind)?;
    path_from(t, points, lifts, forms, coords, s)
}
