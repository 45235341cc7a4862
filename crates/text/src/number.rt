// Numbers as decimal text.
ghost use Rattle.std.specs.Prelude.{◌<◌, ◌≤◌, ◌^◌, ◌≡◌, length};
ghost use Rattle.text.specs.Decimal.{decimal, integer as integerText};
ghost use Rattle.text.specs.laws.Writing.{Spelled};
ghost use Rattle.text.specs.Paste.{Pasted};

use crate::window::{byte, bytes};

// The digits of n at the end of `digits`. The index of the first. By hand and not by a crate as `itoa`: the wrong program digit_of_another_remainder is
// refused at this remainder.
fn spell(digits: &mut [u8; 20], n: u64) -> usize
    requires { length digits.old ≡ 20 }
    ensures { Spelled n result digits.new }
{
    let mut i: usize = 19;
    let mut rest = n;
    while 10 <= rest {
        digits[i] = 48 + (rest % 10) as u8;
        rest /= 10;
        i -= 1;
    }
    digits[i] = 48 + rest as u8;
    i
}

// Writes n in decimal from place `at` on. The place after it.
pub fn number(out: &mut [u8], from: usize, at: usize, n: u64) -> usize
    requires { at ≤ 2 ^ 48 }
    ensures { Pasted from at out.old (decimal n) result out.new }
{
    let mut digits = [0u8; 20];
    let i = spell(&mut digits, n);
    bytes(out, from, at, &digits[i..])
}

// Writes z in decimal from place `at` on, with a minus sign if it is negative. The place after it.
pub fn integer(out: &mut [u8], from: usize, at: usize, z: i32) -> usize
    requires { at < 2 ^ 48 }
    ensures { Pasted from at out.old (integerText z) result out.new }
{
    let n = u64::from(z.unsigned_abs());
    if z < 0 {
        let next = byte(out, from, at, b'-');
        return number(out, from, next, n);
    }
    number(out, from, at, n)
}
