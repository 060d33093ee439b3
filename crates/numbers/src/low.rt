// A number in bytes, the low byte first.
ghost use Rattle.std.specs.Prelude.{◌≡◌, ◌+◌, ◌^◌, ◌<◌, ◌≤◌, length, take, drop};
ghost use Rattle.numbers.specs.Numbers.{of_low};

// The number in the `width` bytes from byte `at` on, the low byte first.
pub fn get_low(bytes: &[u8], at: usize, width: usize) -> u32
    requires { (at + width ≤ length bytes.now) × (width ≤ 4) }
    ensures { (result ≡ of_low (take width (drop at bytes.now))) × (result < 256 ^ width) }
{
    let mut number: u32 = 0;
    for left in (0..width).rev() {
        number = number * 256 + u32::from(bytes[at + left]);
    }
    number
}
