// A code from the numbers that its bits make: a prefix code by its first bits, a signed one by magnitude and sign.
ghost use Rattle.std.specs.Prelude.{◌≡◌, ◌^◌, ◌≤◌, ◌<◌};
ghost use Rattle.reader_codes.specs.Seen.{word_bits, code_seen, length_seen};
ghost use Rattle.reader_codes.specs.Signs.{signed_of};

use quantizer::tables::magnitude_bits;

// MAX_BIT_TABLE.
pub fn word_bits(r: u8) -> u32
    requires { (1 ≤ r) × (r ≤ 15) }
    ensures { (result ≡ word_bits r) × (result ≤ 12) }
{
    magnitude_bits(r) + 1
}

// The prefix codes below resolution 8, by the number that their first bits make: how many bits the code has that it begins with,
static LENGTHS: [[u8; 16]; 8] = [
    [0, 0, 0, 0, 0, 0, 0, 0, 0, 0, 0, 0, 0, 0, 0, 0],
    [1, 1, 2, 2, 1, 1, 2, 2, 1, 1, 2, 2, 1, 1, 2, 2],
    [2, 2, 2, 2, 2, 2, 3, 3, 2, 2, 2, 2, 2, 2, 3, 3],
    [2, 2, 3, 3, 3, 3, 3, 3, 2, 2, 3, 3, 3, 3, 3, 3],
    [3, 3, 3, 3, 3, 3, 3, 3, 3, 3, 3, 3, 3, 3, 4, 4],
    [3, 3, 3, 3, 3, 3, 3, 3, 3, 3, 4, 4, 4, 4, 4, 4],
    [3, 3, 3, 3, 3, 3, 4, 4, 4, 4, 4, 4, 4, 4, 4, 4],
    [3, 3, 4, 4, 4, 4, 4, 4, 4, 4, 4, 4, 4, 4, 4, 4],
];

// and which code that is.
static CODES: [[i8; 16]; 8] = [
    [0, 0, 0, 0, 0, 0, 0, 0, 0, 0, 0, 0, 0, 0, 0, 0],
    [0, 0, 1, -1, 0, 0, 1, -1, 0, 0, 1, -1, 0, 0, 1, -1],
    [0, 0, 1, 1, -1, -1, 2, -2, 0, 0, 1, 1, -1, -1, 2, -2],
    [0, 0, 1, -1, 2, -2, 3, -3, 0, 0, 1, -1, 2, -2, 3, -3],
    [0, 0, 1, 1, -1, -1, 2, 2, -2, -2, 3, 3, -3, -3, 4, -4],
    [0, 0, 1, 1, -1, -1, 2, 2, -2, -2, 3, -3, 4, -4, 5, -5],
    [0, 0, 1, 1, -1, -1, 2, -2, 3, -3, 4, -4, 5, -5, 6, -6],
    [0, 0, 1, -1, 2, -2, 3, -3, 4, -4, 5, -5, 6, -6, 7, -7],
];

pub fn seen_length(r: u8, seen: u32) -> u32
    requires { (r < 8) × (seen < 16) }
    ensures { (result ≡ length_seen r seen) × (result ≤ 15) }
{
    LENGTHS[r as usize][seen as usize] as u32
}

pub fn seen_code(r: u8, seen: u32) -> i32
    requires { (r < 8) × (seen < 16) }
    ensures { result ≡ code_seen r seen }
{
    CODES[r as usize][seen as usize] as i32
}

// A code from resolution 8 up.
pub fn with_sign(magnitude: u32, sign: u32) -> i32
    requires { magnitude < 2 ^ 16 }
    ensures { result ≡ signed_of sign magnitude }
{
    let up = magnitude as i32;
    if sign == 0 { up } else { -up }
}
