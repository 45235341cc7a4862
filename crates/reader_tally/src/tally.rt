// A tally, brought forward by one step: its letters are counted without a loop, and no field may pass 32 bits.
ghost use Rattle.std.specs.Prelude.{◌≡◌};
ghost use Rattle.tracing_walks.specs.laws.Stands.{Stands};
ghost use Rattle.reader_tally.specs.Forward.{forward_of, tally_of};

use lengths::length::{LAP, OVER_ALLOWANCE, edge_length};
use table::answer::Refusal;
use weave_letters::letter::{crossings, edge_word, overs};

// "steps, overs, unders, length"
#[repr(C)]
#[derive(Clone, Copy)]
pub struct Tally {
    pub steps: u32,
    pub overs: u32,
    pub unders: u32,
    pub length: u32,
}

// The largest number of 32 bits.
pub const MOST: u32 = 4294967295;

// The tally with a step more of so many O's and U's and this length.
fn forward(y: Tally, o: u16, u: u16, length: u32) -> Result<Tally, Refusal>
    ensures { result ≡ forward_of y o u length }
{
    if MOST <= y.steps {
        return Err(Refusal::Overturned);
    }
    if MOST - y.overs < o as u32 {
        return Err(Refusal::Overturned);
    }
    if MOST - y.unders < u as u32 {
        return Err(Refusal::Overturned);
    }
    if MOST - y.length < length {
        return Err(Refusal::Overturned);
    }
    Ok(Tally {
        steps: y.steps + 1,
        overs: y.overs + o as u32,
        unders: y.unders + u as u32,
        length: y.length + length,
    })
}

// The tally with step s more, which is the walk's last one or is not.
pub fn tally_step(t: &[u16], s: u16, last: bool, y: Tally) -> Result<Tally, Refusal>
    requires { Stands t.now s }
    ensures { result ≡ tally_of t.now s last y }
{
    let l = edge_length(t, s);
    let w = edge_word(t, s);
    let o = overs(w, s % 2);
    let u = crossings(w) - o;
    let length = l as u32 + OVER_ALLOWANCE * o as u32 + LAP * last as u32;
    forward(y, o, u, length)
}
