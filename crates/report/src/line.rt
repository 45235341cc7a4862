// The lines of the mesh and of the weave.
ghost use Rattle.std.specs.Prelude.{◌<◌, ◌^◌};
ghost use Rattle.table.specs.Good.{Good};
ghost use Rattle.table.specs.Rotation.{rotation};
ghost use Rattle.report_lines.specs.Lines.{mesh_text, mesh_line, weave_line};
ghost use Rattle.report_lines.specs.laws.Wrote.{Wrote};

use report_lines::field::{field, signed_field};
use surface_calls::mesh::{Mesh, measure_mesh};
use text::window::{byte, bytes};
use weave_plain::plain::is_plain;

// The line of a mesh of these counts.
fn write_mesh(out: &mut [u8], from: usize, at: usize, m: Mesh) -> usize
    requires { at < 2 ^ 46 }
    ensures { Wrote 101 from at out.old (mesh_text m.vertices m.edges m.walks m.parts m.euler) result out.new }
{
    let word = bytes(out, from, at, b"mesh");
    let first = field(out, from, word, m.vertices as u64);
    let second = field(out, from, first, m.edges as u64);
    let third = field(out, from, second, m.walks as u64);
    let fourth = field(out, from, third, m.parts as u64);
    let fifth = signed_field(out, from, fourth, m.euler);
    byte(out, from, fifth, b'\n')
}

// The line of the mesh.
pub fn mesh_line(t: &[u16], out: &mut [u8], from: usize, at: usize) -> usize
    requires { Good t.now × (at < 2 ^ 46) }
    ensures { Wrote 101 from at out.old (mesh_line (rotation t.now)) result out.new }
{
    write_mesh(out, from, at, measure_mesh(t))
}

// The line of the weave.
pub fn weave_line(t: &[u16], out: &mut [u8], from: usize, at: usize) -> usize
    requires { Good t.now × (at < 2 ^ 46) }
    ensures { Wrote 12 from at out.old (weave_line t.now) result out.new }
{
    if is_plain(t) {
        return bytes(out, from, at, b"weave plain\n");
    }
    bytes(out, from, at, b"weave mixed\n")
}
