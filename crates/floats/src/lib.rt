// Single-precision leaves: what Rust's `f32` has as methods, and a running average of magnitudes.
#![tactic(auto)]

// Sums of magnitudes that look at no bits.
pub mod magnitudes;

ghost use Rattle.std.specs.Prelude.{◌≡◌, ◌<◌, ◌≤◌, ◌+◌, ◌*◌, ◌^◌, T, not, length, pos};
ghost use Rattle.std.specs.Float.Ieee as Ieee;
ghost use Rattle.std.specs.Float.Ieee.{fits, is_nan};
ghost use Rattle.std.specs.Float.{binary32};
ghost use Rattle.std.specs.Float.Ieee.Scale.{finite as is_finite};
ghost use Rattle.floats.specs.Single.{abs_f, held_f, cut_to, Short, max_f, min_f, folded, max_abs, zero_f, no_average, with_one, with_eight, mean};

// |x| where x is no NaN, from the bits: the sign's bit is taken off. It is single, as every f32 is.
pub fn size(x: f32) -> f32
    requires { T (not (is_nan x)) }
    ensures { (result ≡ abs_f x) × T (fits binary32 x) }
{
    f32::from_bits(x.to_bits() % 0x8000_0000)
}

// |x|. A NaN, which has no pattern of its own, is left.
pub fn magnitude(x: f32) -> f32
    ensures { result ≡ abs_f x }
{
    if x.is_nan() { x } else { size(x) }
}

// Whether x is neither a NaN nor an infinity: two comparisons, and no branch.
pub fn finite(x: f32) -> bool
    ensures { result ≡ is_finite x }
{
    (f32::NEG_INFINITY < x) & (x < f32::INFINITY)
}

// x held within low and high, as Rust's `clamp` does; a NaN is left.
#[tactic(auto, unfolding(crate::specs::Single::held_f))]
pub fn hold(x: f32, low: f32, high: f32) -> f32
    ensures { result ≡ held_f low high x }
{
    if x < low {
        return low;
    }
    if high < x { high } else { x }
}

// The whole part of the number with the pattern `bits`, which has no sign, or 2 ^ 31 where it is
// larger: the significand with its leading digit, shifted by the exponent.
fn cut(bits: u32) -> u32
    requires { bits ≤ 0x7F80_0000 }
    ensures { result ≡ cut_to (2 ^ 31) (Ieee.of_bits binary32 bits) }
{
    let exponent: u32 = bits / 0x80_0000;
    let digits: u32 = bits % 0x80_0000 + 0x80_0000;
    if exponent < 127 {
        return 0;
    }
    if exponent <= 150 {
        return digits >> (150 - exponent);
    }
    if exponent < 158 {
        return digits << (exponent - 150);
    }
    0x8000_0000
}

// y without its fraction, by a large addend: 2 ^ 23 more has no room for a fraction, so the sum is a
// whole number next to it, and one too many where it came out above y.
fn whole(y: f32) -> u32
    requires { Short y }
    ensures { (pos result ≡ Ieee.to_signed 31 y) × (result < 4096) }
{
    let z: f32 = y + 8388608.0;
    let w: f32 = z - 8388608.0;
    let n: u32 = f32::to_bits(z) - 0x4B00_0000;
    if y < w { n - 1 } else { n }
}

// x without its fraction, as Rust's `x as i32` has it: an x out of range gives the nearest end, and
// a NaN gives 0. From 1.0 up and below 4,096.0 there is a quick way, without shifts.
pub fn truncate(x: f32) -> i64
    ensures { result ≡ Ieee.to_signed 31 x }
{
    if 1.0 <= x && x < 4096.0 {
        return whole(x) as i64;
    }
    if x.is_nan() {
        return 0;
    }
    let bits: u32 = f32::to_bits(x);
    let n: u32 = cut(bits % 0x8000_0000);
    if bits >= 0x8000_0000 {
        return -(n as i64);
    }
    if n < 0x8000_0000 {
        return n as i64;
    }
    0x7FFF_FFFF
}

// The larger of two values; a where neither is below the other.
#[tactic(auto, unfolding(crate::specs::Single::max_f))]
pub fn larger(a: f32, b: f32) -> f32
    ensures { result ≡ max_f a b }
{
    if a < b { b } else { a }
}

// The smaller of two values; a where neither is below the other.
#[tactic(auto, unfolding(crate::specs::Single::min_f))]
pub fn smaller(a: f32, b: f32) -> f32
    ensures { result ≡ min_f a b }
{
    if b < a { b } else { a }
}

// The largest magnitude of eight values, `stride` apart, the first at `at`.
pub fn peak(xs: &[f32], at: usize, stride: usize) -> f32
    requires { at + 7 * stride < length xs.now }
    ensures { result ≡ folded max_abs xs.now at stride 8 zero_f }
{
    let mut top: f32 = 0.0;
    for k in 0..8 {
        top = larger(top, magnitude(xs[at + k * stride]));
    }
    top
}

// A running sum of magnitudes, and how many values went into it.
#[derive(Clone, Copy)]
pub struct Average {
    pub sum: f32,
    pub count: usize,
}

impl Average {
    // Of no values.
    #[tactic(auto, unfolding(crate::specs::Single::no_average))]
    pub fn none() -> Average
        ensures { result ≡ no_average }
    {
        Average { sum: 0.0, count: 0 }
    }

    // With the magnitude of one value more.
    #[tactic(auto, unfolding(crate::specs::Single::with_one))]
    pub fn with_one(self, x: f32) -> Average
        requires { self.count < 0x100_0000 }
        ensures { result ≡ with_one self x }
    {
        Average {
            sum: self.sum + magnitude(x),
            count: self.count + 1,
        }
    }

    // With the magnitudes of eight values more, `stride` apart, the first at `at`, added in order.
    pub fn with_eight(self, xs: &[f32], at: usize, stride: usize) -> Average
        requires stride_in_bounds { at + 7 * stride < length xs.now }
        requires count_bound { self.count ≤ 0xFF_FFF8 }
        ensures { result ≡ with_eight xs.now at stride self }
    {
        let mut sum = self.sum;
        for k in 0..8 {
            sum += magnitude(xs[at + k * stride]);
        }
        Average {
            sum,
            count: self.count + 8,
        }
    }

    // The sum over the count; 0.0 where there are no values.
    #[tactic(auto, unfolding(crate::specs::Single::mean, crate::specs::Single::mean_f))]
    pub fn mean(self) -> f32
        requires { self.count ≤ 0x100_0000 }
        ensures { result ≡ mean self }
    {
        if self.count == 0 {
            return 0.0;
        }
        self.sum / (self.count as f32)
    }
}
