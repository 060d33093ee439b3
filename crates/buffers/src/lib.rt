// Clearing of lent buffers.
#![tactic(auto)]

ghost use Rattle.std.specs.Prelude.{◌≡◌, false, pos, length, replicate};
ghost use Rattle.std.specs.Float.{fin};

// A type of numbers, by its 0; of a float it is +0.0.
pub trait Zero: Copy {
    ghost ZERO: { Self };

    const ZERO: Self;
}

impl Zero for u8 {
    ghost ZERO = { 0 };

    const ZERO: u8 = 0;
}

impl Zero for i32 {
    ghost ZERO = { pos 0 };

    const ZERO: i32 = 0;
}

impl Zero for f32 {
    ghost ZERO = { fin false 0 (pos 0) };

    const ZERO: f32 = 0.0;
}

// To 0 throughout.
pub fn clear<T: Zero>(s: &mut [T])
    ensures { s.new ≡ replicate (length s.old) T.ZERO }
{
    for x in s {
        *x = T::ZERO;
    }
}
