// A number as bytes, the high byte first.
ghost use Rattle.std.specs.Prelude.{◌≡◌, ◌+◌, ◌^◌, ◌<◌, ◌≤◌, length, take, drop};
ghost use Rattle.numbers.specs.Numbers.{high_first, of_high, replaced};

// Stores the `width` low bytes of a number from byte `at` on. The low byte is stored first, so that no shift has a width of its own.
pub fn put_high(bytes: &mut [u8], at: usize, width: usize, number: u64)
    requires { at + width ≤ length bytes.old }
    ensures { bytes.new ≡ replaced bytes.old at (high_first width number) }
{
    let mut rest = number;
    for left in (0..width).rev() {
        bytes[at + left] = (rest % 256) as u8;
        rest /= 256;
    }
}

// The number in the `width` bytes from byte `at` on.
pub fn get_high(bytes: &[u8], at: usize, width: usize) -> u64
    requires { (at + width ≤ length bytes.now) × (width ≤ 8) }
    ensures { (result ≡ of_high (take width (drop at bytes.now))) × (result < 256 ^ width) }
{
    let mut number: u64 = 0;
    for &byte in &bytes[at..at + width] {
        number = number * 256 + u64::from(byte);
    }
    number
}
