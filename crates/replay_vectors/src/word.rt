// What a word of 32 bits stands for.
ghost use Rattle.std.specs.Prelude.{◌≡◌};
ghost use Rattle.std.specs.Int.{w32};
ghost use Rattle.std.proofs.Common.{of_z};

use numbers::signed::int_of;
use std::num::f32_from_bits_with_nan;

pub trait Word: Copy {
    fn from_bits(bits: u32) -> Self;

    fn bits(self) -> u32;
}

impl Word for i32 {
    fn from_bits(bits: u32) -> i32
        ensures { of_z w32 result ≡ bits }
    {
        int_of(bits)
    }

    fn bits(self) -> u32 {
        self.cast_unsigned()
    }
}

// Any NaN stands for one, and has no bits; nothing that is delivered holds one.
impl Word for f32 {
    fn from_bits(bits: u32) -> f32 {
        f32_from_bits_with_nan(bits)
    }

    fn bits(self) -> u32 {
        if self.is_nan() { 0 } else { self.to_bits() }
    }
}
