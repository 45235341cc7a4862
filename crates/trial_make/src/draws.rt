// The draws of a trial job.
ghost use Rattle.std.specs.Prelude.{◌≡◌, ◌*◌, ◌%◌, ◌^◌, ◌<◌};
ghost use Rattle.trial_jobs.specs.Trial.{after_draw, draw as drawn};

// x * y, modulo 2^32. A helper of our own, as document 01 has it.
fn wrapping_mul_u32(x: u32, y: u32) -> u32
    ensures { result ≡ (x * y) % 2 ^ 32 }
{
    x.wrapping_mul(y)
}

// The state that one more draw sets.
pub fn after_draw(s: u32) -> u32
    ensures { result ≡ after_draw s }
{
    wrapping_mul_u32(s, 1664525).wrapping_add(1013904223)
}

// What a draw below n reads in the state that it has set.
pub fn draw(n: u32, s: u32) -> u32
    requires { 0 < n }
    ensures { result ≡ drawn n s }
{
    s / 65536 % n
}
