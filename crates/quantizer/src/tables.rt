// The tables by resolution.
ghost use Rattle.std.specs.Prelude.{◌≡◌, ◌≤◌, pos, get_or};
ghost use Rattle.std.specs.Float.{nan};
ghost use Rattle.rules.specs.Tables.{dead_zone_table};
ghost use Rattle.rules.specs.Code.{step_of, step_shift, magnitude_bits, code_limit};

// MAX_BIT_TABLE - 1, not below 0.
static MAGNITUDE_BITS: [u8; 16] = [0, 1, 2, 2, 3, 3, 3, 3, 4, 5, 6, 7, 8, 9, 10, 11];

// QUANTIZER_DEAD_ZONE.
static DEAD_ZONE: [f32; 16] = [
    0.0,
    3.3333334e-1,
    2.0e-1,
    1.4285715e-1,
    1.1111111e-1,
    9.090909e-2,
    7.692308e-2,
    6.666667e-2,
    3.2258064e-2,
    1.5873017e-2,
    7.874016e-3,
    3.921569e-3,
    1.9569471e-3,
    9.775171e-4,
    4.885198e-4,
    2.4420026e-4,
];

pub fn magnitude_bits(r: u8) -> u32
    requires { r ≤ 15 }
    ensures { (result ≡ magnitude_bits r) × (result ≤ 11) }
{
    MAGNITUDE_BITS[r as usize] as u32
}

pub fn limit_of(r: u8) -> i64
    requires { r ≤ 15 }
    ensures { result ≡ pos (code_limit r) }
{
    i64::from((1u32 << magnitude_bits(r)) - 1)
}

// step + 0.5: 1, 2, .., 8, 16, .., 2048.
fn whole_step(r: u8) -> u32
    requires { r ≤ 15 }
    ensures { (pos result ≡ step_shift r) × (result ≤ 2048) }
{
    if r < 8 { r as u32 + 1 } else { 1 << (r - 4) }
}

// QUANTIZER_INVERSE_STEP_SIZE.
pub fn step_of(r: u8) -> f32
    requires { r ≤ 15 }
    ensures { result ≡ step_of r }
{
    whole_step(r) as f32 - 0.5
}

pub fn dead_zone(r: u8) -> f32
    requires { r ≤ 15 }
    ensures { result ≡ get_or dead_zone_table r nan }
{
    DEAD_ZONE[r as usize]
}
