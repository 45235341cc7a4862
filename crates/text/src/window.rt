// Bytes written through a window on a text: `from` is the place in the text where the slice begins, `at` the place that comes next.
ghost use Rattle.std.specs.Prelude.{◌+◌, ◌<◌, ◌^◌, ◌≡◌, ◌∷◌, [], length};
ghost use Rattle.text.specs.Paste.{put, Pasted};

// Stores b at place `at` if the window shows it.
#[tactic(auto, unfolding(crate::specs::Paste::put))]
fn store(out: &mut [u8], from: usize, at: usize, b: u8)
    ensures { out.new ≡ put from at out.old b }
{
    if at < from {
        return;
    }
    let i = at - from;
    if out.len() <= i {
        return;
    }
    out[i] = b;
}

// Writes b at place `at`. The place after it.
pub fn byte(out: &mut [u8], from: usize, at: usize, b: u8) -> usize
    requires { at < 2 ^ 63 }
    ensures { Pasted from at out.old (b ∷ []) result out.new }
{
    store(out, from, at, b);
    at + 1
}

// Writes the bytes of s from place `at` on. The place after them.
pub fn bytes(out: &mut [u8], from: usize, at: usize, s: &[u8]) -> usize
    requires { at + length s.now < 2 ^ 64 }
    ensures { Pasted from at out.old s.now result out.new }
{
    for (i, b) in s.iter().enumerate() {
        store(out, from, at + i, *b);
    }
    at + s.len()
}
