// The eight values of a band, by value, counted by comparisons: lent, they would be read from memory again for each resolution.
ghost use Rattle.std.specs.Prelude.{◌≡◌, ◌+◌, ◌≤◌, ◌<◌, T, length};
ghost use Rattle.std.specs.Float.{binary32};
ghost use Rattle.std.specs.Float.Ieee.{fits};
ghost use Rattle.floats.specs.Single.{abs_f};
ghost use Rattle.rules.specs.Scaling.{clip};
ghost use Rattle.within.specs.Within.{Within, within_b};
ghost use Rattle.within.specs.Zones.{reached_f};
ghost use Rattle.band_counts.specs.Counts.{eight_within, EachWithin, EachSingle, sizes_of, eight_reached, eight_bits};

use crate::tables::{dead_of, drop_of, high_of, low_of, most_of, wide_of};
use rules::Mode;

// Whether a value is within the clip.
fn is_within(x: f32) -> bool
    ensures { result ≡ within_b x }
{
    (-0.9999999 <= x) & (x <= 0.9999999)
}

// Whether each of eight is. All are tried: to leave at the first that is not costs more tests.
pub(crate) fn all_within(e: [f32; 8]) -> bool
    ensures { result ≡ eight_within e }
{
    let mut all = true;
    for i in 0..8 {
        all &= is_within(e[i]);
    }
    all
}

// |x|, without a test for a NaN; and that x is single.
fn size(x: f32) -> f32
    requires { Within x }
    ensures { (result ≡ abs_f x) × T (fits binary32 x) }
{
    f32::from_bits(f32::to_bits(x) % 0x8000_0000)
}

pub(crate) fn sizes_of(e: [f32; 8]) -> [f32; 8]
    requires { EachWithin e }
    ensures { (result ≡ sizes_of e) × EachSingle e }
{
    let mut sizes = [0.0; 8];
    for i in 0..8 {
        sizes[i] = size(e[i]);
    }
    sizes
}

// 1 where a value reaches the mark, else 0; and how many of eight do.
fn reached(mark: f32, x: f32) -> u32
    ensures { (result ≡ reached_f mark x) × (result ≤ 1) }
{
    if mark <= x { 1 } else { 0 }
}

fn eight_reached(mark: f32, e: [f32; 8]) -> u32
    ensures { (result ≡ eight_reached mark e) × (result ≤ 8) }
{
    let mut count = 0;
    for i in 0..8 {
        count += reached(mark, e[i]);
    }
    count
}

pub(crate) fn clip_count(e: [f32; 8]) -> u32
    ensures { result ≡ eight_reached clip e }
{
    eight_reached(0.9999999, e)
}

// Below resolution 8, by its zone, the clip's values lacking what is dropped there.
pub(crate) fn small_count(mode: Mode, e: [f32; 8], clips: u32, k: usize) -> u32
    requires each_within { EachWithin e × EachSingle e × (clips ≡ eight_reached clip e) }
    requires k_bound { k < 8 }
    ensures { (result ≡ eight_bits mode k e) × (result ≤ 96) }
{
    let more = most_of(k) + eight_reached(high_of(k), e);
    let drop = drop_of(mode, k);
    more - (eight_reached(low_of(k), e) + drop * clips)
}

// At k + 8, with the values' magnitudes, by its dead zone.
pub(crate) fn wide_count(mode: Mode, e: [f32; 8], m: [f32; 8], k: usize) -> u32
    requires { (m ≡ sizes_of e) × (k < 8) }
    ensures { (result ≡ eight_bits mode (k + 8) e) × (result ≤ 96) }
{
    wide_of(k) + eight_reached(dead_of(k), m)
}
