// What a resolution below 8 counts by, and what the one 8 above it does: a column for each.
ghost use Rattle.std.specs.Prelude.{◌≡◌, ◌+◌, ◌*◌, ◌<◌, get_or};
ghost use Rattle.std.specs.Float.{nan};
ghost use Rattle.rules.specs.Tables.{dead_zone_table};
ghost use Rattle.rules.specs.Code.{magnitude_bits};
ghost use Rattle.quantizer.specs.Marks.{high_at};
ghost use Rattle.within.specs.Zones.{zone_low, zone_high, zone_drop};

use rules::Mode;

// Where the zones of 0 to 7 begin and end.
static LOW: [f32; 8] = [
    0.0,
    -3.3333337e-1,
    -6.0e-1,
    -1.4285718e-1,
    -7.777778e-1,
    -4.5454547e-1,
    -2.3076928e-1,
    -6.66667e-2,
];

static HIGH: [f32; 8] = [
    0.0,
    3.3333325e-1,
    5.999999e-1,
    1.4285707e-1,
    7.777777e-1,
    4.5454535e-1,
    2.3076916e-1,
    6.66666e-2,
];

// The dead zones of 8 to 15.
static DEAD: [f32; 8] = [
    3.2258064e-2,
    1.5873017e-2,
    7.874016e-3,
    3.921569e-3,
    1.9569471e-3,
    9.775171e-4,
    4.885198e-4,
    2.4420026e-4,
];

// The most bits that eight values take at 0 to 7, and at 8 to 15 without their signs.
static MOST: [u32; 8] = [0, 16, 24, 24, 32, 32, 32, 32];

static WIDE: [u32; 8] = [32, 40, 48, 56, 64, 72, 80, 88];

// What a value at the clip lacks at 0 to 7, in the Rust's mode. In held mode nothing is dropped.
static DROP: [u32; 8] = [0, 0, 3, 0, 4, 4, 0, 0];

pub(crate) fn low_of(k: usize) -> f32
    requires { k < 8 }
    ensures { result ≡ zone_low k }
{
    LOW[k]
}

pub(crate) fn high_of(k: usize) -> f32
    requires { k < 8 }
    ensures { result ≡ zone_high k }
{
    HIGH[k]
}

pub(crate) fn dead_of(k: usize) -> f32
    requires { k < 8 }
    ensures { result ≡ get_or dead_zone_table (k + 8) nan }
{
    DEAD[k]
}

pub(crate) fn most_of(k: usize) -> u32
    requires { k < 8 }
    ensures { result ≡ 8 * high_at k }
{
    MOST[k]
}

pub(crate) fn wide_of(k: usize) -> u32
    requires { k < 8 }
    ensures { result ≡ 8 * magnitude_bits (k + 8) }
{
    WIDE[k]
}

pub(crate) fn drop_of(mode: Mode, k: usize) -> u32
    requires { k < 8 }
    ensures { result ≡ zone_drop mode k }
{
    match mode {
        Mode::Rust => DROP[k],
        Mode::Held => 0,
    }
}
