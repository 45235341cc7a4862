// The crossings of one step and their letters, from the word of its edge and its type.
ghost use Rattle.std.specs.Prelude.{◌<◌, ◌≡◌};
ghost use Rattle.tracing.specs.Met.{times};
ghost use Rattle.tracing_walks.specs.laws.Stands.{Stands};
ghost use Rattle.weave.specs.Letters.{over, crossings as crossingsOf, letter_at, letters_on};
ghost use Rattle.weave_letters.specs.laws.Crossing.{EdgeWord};

use table::layout::{EDGE, UNTURNED};

// The letters, as they are written: bytes and no enum, since C reads them.
pub const OVER: u8 = 79;

pub const UNDER: u8 = 85;

// The word of the edge that step s is on.
pub fn edge_word(t: &[u16], s: u16) -> u16
    requires { Stands t.now s }
    ensures { EdgeWord t.now s result }
{
    t[EDGE + (s / 2 / 2) as usize]
}

// The number of crossings of an edge of word w.
pub fn crossings(w: u16) -> u16
    ensures { result ≡ crossingsOf w }
{
    if w < UNTURNED {
        return UNTURNED - w;
    }
    w - UNTURNED
}

// The letter of crossing j, from 0 on, of a step of type `kind` on an edge of word w.
pub fn letter(w: u16, kind: u16, j: u16) -> u8
    ensures { result ≡ letter_at w kind j }
{
    if kind % 2 == j % 2 {
        if UNTURNED < w {
            return OVER;
        }
        return UNDER;
    }
    if UNTURNED < w {
        return UNDER;
    }
    OVER
}

// The number of O's among the letters of a step: every other one, from the first on if it is O.
pub fn overs(w: u16, kind: u16) -> u16
    requires { kind < 2 }
    ensures { result ≡ times over (letters_on w kind) }
{
    let n = crossings(w);
    if UNTURNED < w {
        return (n + 1 - kind) / 2;
    }
    (n + kind) / 2
}
