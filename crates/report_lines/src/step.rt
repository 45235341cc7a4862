// The steps of a walk, each as dart/type:letters.
ghost use Rattle.std.specs.Prelude.{◌<◌, ◌^◌};
ghost use Rattle.table.specs.Rotation.{rotation};
ghost use Rattle.tracing.specs.Walk.{walk};
ghost use Rattle.tracing.specs.Listing.{gather};
ghost use Rattle.tracing_walks.specs.laws.Stands.{Stands};
ghost use Rattle.weave.specs.Letters.{letters_on};
ghost use Rattle.report_lines.specs.Lines.{step_text};
ghost use Rattle.report_lines.specs.laws.Wrote.{Wrote, steps_most};
ghost use Rattle.report_lines.specs.laws.Steps.{Crossed};

use crate::field::field;
use text::number::number;
use text::window::byte;
use tracing_walks::walk::walk;
use weave_letters::letter::{crossings, edge_word, letter};

// The letters of a step of type `kind` on an edge of word w.
fn write_letters(out: &mut [u8], from: usize, at: usize, w: u16, kind: u16) -> usize
    requires { Crossed w kind at }
    ensures { Wrote 99 from at out.old (letters_on w kind) result out.new }
{
    let n = crossings(w);
    for j in 0..n {
        byte(out, from, at + j as usize, letter(w, kind, j));
    }
    at + n as usize
}

// The field of step s.
fn write_step(t: &[u16], out: &mut [u8], from: usize, at: usize, s: u16) -> usize
    requires { Stands t.now s × (at < 2 ^ 45) }
    ensures { Wrote 142 from at out.old (step_text t.now s) result out.new }
{
    let w = edge_word(t, s);
    let dart = field(out, from, at, (s / 2) as u64);
    let slash = byte(out, from, dart, b'/');
    let kind = number(out, from, slash, (s % 2) as u64);
    let colon = byte(out, from, kind, b':');
    write_letters(out, from, colon, w, s % 2)
}

// The fields of the steps of the walk from s.
pub fn write_steps(t: &[u16], out: &mut [u8], from: usize, at: usize, s: u16) -> usize
    requires { Stands t.now s × (at < 2 ^ 44) }
    ensures { Wrote steps_most from at out.old (gather (step_text t.now) (walk (rotation t.now) s)) result out.new }
{
    let mut end = at;
    for here in walk(t, s) {
        end = write_step(t, out, from, end, here);
    }
    end
}
