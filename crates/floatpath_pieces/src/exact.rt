// Coordinates in millimetres, from whole numbers of thirty-seconds.
ghost use Rattle.std.specs.Prelude.{◌≤◌, ◌≡◌, nat_abs};
ghost use Rattle.floatpath_pieces.specs.Exact.{largest, over32};

// z thirty-seconds, exactly: the cast loses nothing, and neither does the division by a power of two.
pub fn over_32(z: i32) -> f32
    requires { nat_abs z ≤ largest }
    ensures { result ≡ over32 z }
{
    (z as f32) / 32.0
}
