// Sums of magnitudes that look at no bits.
ghost use Rattle.std.specs.Prelude.{◌≡◌};
ghost use Rattle.floats.specs.Single.{add_abs};

// s + |x|. 0.0 - x rounds nothing and is +0.0 of either zero, as -x is not: so both arms are compiled to one absolute value.
// `floats::magnitude` would test each x for a NaN.
pub fn add_magnitude(s: f32, x: f32) -> f32
    ensures { result ≡ add_abs s x }
{
    if x > 0.0 { s + x } else { s + (0.0 - x) }
}
