// A decimal number in the bytes of an argument.
ghost use Rattle.std.specs.Prelude.{◌≡◌};
ghost use Rattle.arguments.specs.Arguments.{number_in};

// The number that s is in decimal, if it is at most `most`. It stops where the digits so far pass `most`: those that follow make the number
// no smaller, and a byte that is no digit makes it none. By hand and not by `parse`, which takes a sign; the crate's six wrong programs are refused here.
pub fn number_in(s: &[u8], most: u32) -> Option<u32>
    ensures { result ≡ number_in s.now most }
{
    if s.len() < 1 {
        return None;
    }
    let bound = most as u64;
    let mut n: u64 = 0;
    for &b in s {
        if b < b'0' {
            return None;
        }
        if b'9' < b {
            return None;
        }
        n = 10 * n + (b - b'0') as u64;
        if bound < n {
            return None;
        }
    }
    Some(n as u32)
}
