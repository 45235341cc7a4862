// The lines of the listed walks.
ghost use Rattle.std.specs.Prelude.{◌<◌, ◌≤◌, ◌^◌};
ghost use Rattle.table.specs.Good.{Good};
ghost use Rattle.report_lines.specs.Lines.{walk_line};
ghost use Rattle.report_lines.specs.laws.Wrote.{Wrote, lones_most, walk_most};
ghost use Rattle.report_lines.specs.laws.Walks.{WalkAt, DartAt, LinePlaced, PlacedAll, LoneAt, PlacedLone, lone_text, lone_lines};
ghost use Rattle.table.specs.Layout.{vertices, darts};

use crate::field::field;
use crate::step::write_steps;
use table::layout::{DARTS, ISOLATED, VERTEX, VERTICES};
use text::number::number;
use text::window::{byte, bytes};
use tracing_walks::count::look;

// Where the text stands, and the index of the next walk.
#[derive(Clone, Copy)]
pub struct Place {
    pub at: usize,
    pub index: u32,
}

// The line of the walk from (d, 0) of n steps, with index i.
fn write_walk(t: &[u16], out: &mut [u8], from: usize, at: usize, i: u32, d: u16, n: usize) -> usize
    requires { WalkAt t.now d n at }
    ensures { Wrote walk_most from at out.old (walk_line t.now i d) result out.new }
{
    let word = bytes(out, from, at, b"walk");
    let index = field(out, from, word, i as u64);
    let count = field(out, from, index, n as u64);
    let end = write_steps(t, out, from, count, 2 * d);
    byte(out, from, end, b'\n')
}

// The line of the walk that starts at dart d, if one does. Marks its corners.
fn walk_line(
    t: &[u16],
    met: &mut [u8; DARTS],
    out: &mut [u8],
    from: usize,
    at: usize,
    i: u32,
    d: usize,
) -> Place
    requires { DartAt t.now met.old d i at }
    ensures { LinePlaced t.now met.old d i from at out.old result met.new out.new }
{
    let Some(steps) = look(t, met, d) else {
        return Place { at: at, index: i };
    };
    let end = write_walk(t, out, from, at, i, d as u16, steps);
    Place {
        at: end,
        index: i + 1,
    }
}

// The lines of the walks that start at a dart, upward.
pub fn walk_lines(t: &[u16], out: &mut [u8], from: usize, at: usize) -> Place
    requires { Good t.now × (at < 2 ^ 42) }
    ensures { PlacedAll t.now from at out.old result out.new }
{
    let mut met = [0u8; DARTS];
    let mut end = at;
    let mut i: u32 = 0;
    for d in 0..DARTS {
        let placed = walk_line(t, &mut met, out, from, end, i, d);
        end = placed.at;
        i = placed.index;
    }
    Place { at: end, index: i }
}

// The line of an empty walk at vertex v, with index i.
fn write_lone(out: &mut [u8], from: usize, at: usize, i: u32, v: u16) -> usize
    requires { at < 2 ^ 44 }
    ensures { Wrote 50 from at out.old (lone_text i v) result out.new }
{
    let word = bytes(out, from, at, b"walk");
    let index = field(out, from, word, i as u64);
    let star = bytes(out, from, index, b" 0 *");
    let vertex = number(out, from, star, v as u64);
    byte(out, from, vertex, b'\n')
}

// The line of the empty walk at vertex v, if it is isolated.
fn lone_line(t: &[u16], out: &mut [u8], from: usize, at: usize, i: u32, v: usize) -> Place
    requires { LoneAt t.now v i at }
    ensures { PlacedLone t.now v i from at out.old result out.new }
{
    if t[VERTEX + v] != ISOLATED {
        return Place { at: at, index: i };
    }
    let end = write_lone(out, from, at, i, v as u16);
    Place {
        at: end,
        index: i + 1,
    }
}

// The lines of the empty walks, upward, with indices from `first` on.
pub fn lone_lines(t: &[u16], out: &mut [u8], from: usize, at: usize, first: u32) -> usize
    requires { Good t.now × (first ≤ darts) × (at < 2 ^ 43) }
    ensures { Wrote lones_most from at out.old (lone_lines t.now first vertices) result out.new }
{
    let mut end = at;
    let mut i = first;
    for v in 0..VERTICES {
        let placed = lone_line(t, out, from, end, i, v);
        end = placed.at;
        i = placed.index;
    }
    end
}
