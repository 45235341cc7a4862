// The letters of a ribbon: how many they are, and written to a lent slice that is long enough.
ghost use Rattle.std.specs.Prelude.{◌+◌, ◌≤◌, ◌<◌, ◌≡◌, length};
ghost use Rattle.std.proofs.lemmas.List.Edits.{sets};
ghost use Rattle.tracing_walks.specs.laws.Stands.{Stands};
ghost use Rattle.weave.specs.Letters.{letters};
ghost use Rattle.weave_letters.specs.laws.Crossing.{LetterRoom, Lettered};
ghost use Rattle.weave_letters.specs.laws.Passing.{LetterCount};

use crate::letter::{crossings, edge_word, letter};
use tracing_walks::walk::walk;

// The number of letters of the ribbon through step s.
pub fn letter_count(t: &[u16], s: u16) -> usize
    requires { Stands t.now s }
    ensures { LetterCount t.now s result }
{
    walk(t, s)
        .map(|at| crossings(edge_word(t, at)) as usize)
        .sum()
}

// The letters of a step of type `kind` on an edge of word w, from index `start` on. The index after them.
fn write_step(out: &mut [u8], start: usize, w: u16, kind: u16) -> usize
    requires { LetterRoom w kind start (length out.old) }
    ensures { Lettered w kind start out.old result out.new }
{
    let n = crossings(w);
    for j in 0..n {
        out[start + j as usize] = letter(w, kind, j);
    }
    start + n as usize
}

// The letters of the ribbon through step s, at the front of a slice that is long enough.
pub fn write_letters(t: &[u16], out: &mut [u8], s: u16)
    requires { Stands t.now s × (length (letters t.now s) ≤ length out.old) }
    ensures { out.new ≡ sets out.old 0 (letters t.now s) }
{
    let mut end: usize = 0;
    for at in walk(t, s) {
        let w = edge_word(t, at);
        end = write_step(out, end, w, at % 2);
    }
}
