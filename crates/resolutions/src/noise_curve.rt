// Document 01, **Resolution**: the noise of a band, and the curve that a resolution is read from.
ghost use Rattle.std.specs.Prelude.{◌≡◌, ◌*◌, ◌≤◌, length, get_or};
ghost use Rattle.buffers.specs.Walk.{AtMost};
ghost use Rattle.rules.specs.Layout.{LegalLayout};
ghost use Rattle.rules.specs.Tables.{resolution_curve};
ghost use Rattle.rules.specs.Resolution.{noise_at, resolution};
ghost use Rattle.resolutions.specs.Stretched.{IsPlain, IsStretched, place_of, Placed};

use rules::Layout;

mod stretched;

pub fn noise_at(level: usize, boundary: usize, band: usize) -> usize
    ensures { (result ≡ noise_at level boundary band) × (result ≤ level) }
{
    if band < boundary {
        level.saturating_sub(1)
    } else {
        level
    }
}

// SCALE_TO_RESOLUTION_CURVE.
static CURVE: [u8; 59] = [
    15, 14, 14, 14, 14, 14, 14, 13, 13, 13, 13, 13, 13, 12, 12, 12, 12, 12, 12, 11, 11, 11, 11, 11,
    11, 10, 10, 10, 10, 10, 10, 10, 9, 9, 9, 9, 9, 9, 8, 8, 8, 8, 8, 8, 7, 6, 6, 5, 4, 4, 4, 3, 3,
    3, 2, 2, 2, 2, 1,
];

pub fn curve(at: usize) -> u8
    requires { at ≤ 58 }
    ensures { (result ≡ get_or resolution_curve at 0) × (result ≤ 15) }
{
    CURVE[at]
}

// The curve, stretched, with its rule.
fn plain_curve() -> [u8; 688]
    ensures { IsPlain result }
{
    stretched::STRETCHED
}

// Within the layout's pair, and a removed band's zeros behind.
fn held_curve(layout: Layout) -> [u8; 688]
    requires { LegalLayout layout }
    ensures { IsStretched layout result }
{
    let lowest = layout.minimum as u8;
    let highest = layout.maximum as u8;
    let mut table = plain_curve();
    for entry in &mut table[..416] {
        *entry = (*entry).max(lowest).min(highest);
    }
    table
}

// A call's curve. It is taken once and lent down. 1 and 15, which most layouts have, hold no entry: these need no walk.
pub fn curve_table(layout: Layout) -> [u8; 688]
    requires { LegalLayout layout }
    ensures { IsStretched layout result }
{
    if layout.minimum == 1 && layout.maximum == 15 {
        plain_curve()
    } else {
        held_curve(layout)
    }
}

// Where a factor stands on it at noise 0.
pub fn place_of(factor: u8) -> u16
    requires { factor ≤ 63 }
    ensures { (result ≡ place_of factor) × (result ≤ 417) }
{
    if factor == 0 {
        417
    } else {
        159 - 5 * factor as u16 / 2
    }
}

// The places of all factors.
pub fn fill_places(factors: &[u8], places: &mut [u16])
    requires { AtMost 63 factors.now × (length places.old ≡ length factors.now) }
    ensures { Placed (length factors.now) factors.now places.new }
{
    for (b, place) in places.iter_mut().enumerate() {
        *place = place_of(factors[b]);
    }
}

// The resolution of a factor at a noise, its place being known: one entry. The layout stands for the pair that the curve is held by, the factor for what
// the place is of.
pub fn read_curve(layout: Layout, curve: &[u8; 688], factor: u8, place: u16, noise: usize) -> u8
    requires { IsStretched layout curve.now × (factor ≤ 63) × (place ≡ place_of factor) × (noise ≤ 254) }
    ensures { (result ≡ resolution layout noise factor) × (result ≤ 15) }
{
    curve[place as usize + noise]
}
