// A signed number from its 32 bits.
ghost use Rattle.std.specs.Prelude.{◌≡◌};
ghost use Rattle.std.specs.Int.{w32};
ghost use Rattle.std.proofs.Common.{of_z};

// The number with these bits: from 2^31 on, 2^32 less.
pub fn int_of(bits: u32) -> i32
    ensures { of_z w32 result ≡ bits }
{
    bits.cast_signed()
}
