// The cut length of a ribbon, as the saw takes it: the lengths of the edges that its steps are on, an allowance for each O, and the lap.
ghost use Rattle.std.specs.Prelude.{◌≡◌};
ghost use Rattle.tracing_walks.specs.laws.Stands.{Stands};
ghost use Rattle.lengths.specs.CutLength.{length_of, taken_by, cut_length, cut_length_of};

use table::answer::Refusal;
use table::layout::LENGTH;
use tracing_walks::walk::walk;
use weave_letters::letter::{edge_word, overs};
use weave_letters::named::named_step;

// What a strand that rides over takes up, and the lap that closes a ribbon, in sixteenths of a millimetre.
pub const OVER_ALLOWANCE: u32 = 8;

pub const LAP: u32 = 320;

// The length of the edge that step s is on.
pub fn edge_length(t: &[u16], s: u16) -> u16
    requires { Stands t.now s }
    ensures { result ≡ length_of t.now s }
{
    t[LENGTH + (s / 2 / 2) as usize]
}

// What step s takes up: the length of its edge, and the allowance for each of its own O's.
pub fn taken_by(t: &[u16], s: u16) -> u32
    requires { Stands t.now s }
    ensures { result ≡ taken_by t.now s }
{
    let l = edge_length(t, s);
    let o = overs(edge_word(t, s), s % 2);
    l as u32 + OVER_ALLOWANCE * o as u32
}

// The cut length of the ribbon through step s.
fn length_along(t: &[u16], s: u16) -> u32
    requires { Stands t.now s }
    ensures { result ≡ cut_length t.now s }
{
    walk(t, s).map(|at| taken_by(t, at)).sum::<u32>() + LAP
}

// The cut length of the ribbon through the step of dart and type, in sixteenths of a millimetre.
pub fn cut_length(t: &[u16], dart: u16, kind: u16) -> Result<u32, Refusal>
    ensures { result ≡ cut_length_of t.now dart kind }
{
    let s = named_step(t, dart, kind)?;
    Ok(length_along(t, s))
}
