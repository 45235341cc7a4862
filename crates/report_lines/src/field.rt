// The fields of a line.
ghost use Rattle.std.specs.Prelude.{◌<◌, ◌^◌, ◌∷◌};
ghost use Rattle.text.specs.Decimal.{decimal, integer as integerText};
ghost use Rattle.report_lines.specs.Lines.{space};
ghost use Rattle.report_lines.specs.laws.Wrote.{Wrote};

use text::number::{integer, number};
use text::window::byte;

// A space and n.
pub fn field(out: &mut [u8], from: usize, at: usize, n: u64) -> usize
    requires { at < 2 ^ 47 }
    ensures { Wrote 21 from at out.old (space ∷ decimal n) result out.new }
{
    let next = byte(out, from, at, b' ');
    number(out, from, next, n)
}

// A space and z.
pub fn signed_field(out: &mut [u8], from: usize, at: usize, z: i32) -> usize
    requires { at < 2 ^ 47 }
    ensures { Wrote 12 from at out.old (space ∷ integerText z) result out.new }
{
    let next = byte(out, from, at, b' ');
    integer(out, from, next, z)
}
