// Document 01, **Resolution**: of a factor at a noise, of a channel's bands, of all channels.
#![tactic(auto)]

// The noise of a band, and the curve that a resolution is read from.
pub mod noise_curve;

ghost use Rattle.std.specs.Prelude.{◌≡◌, cond, ◌*◌, ◌≤◌, ltb, length};
ghost use Rattle.rules.specs.Layout.{LegalLayout};
ghost use Rattle.rules.specs.Resolution.{noise_at, held_position, resolution_in, resolution, channel_resolutions, all_resolutions};

use crate::noise_curve::{curve, noise_at};
use layouts::coded_count;
use rules::Layout;

// Room for the resolutions of sixteen channels, of which a caller lends the layout's.
pub const RESOLUTION_ROOM: usize = 2048;

// The position on the curve, which is signed until it is held.
fn held_position(noise: usize, factor: u8) -> usize
    requires { noise ≤ 511 }
    ensures { (result ≡ held_position noise factor) × (result ≤ 58) }
{
    let down = 5 * factor as usize / 2;
    (noise as i64 - down as i64 + 2).clamp(0, 58) as usize
}

fn resolution_in(lowest: u8, highest: u8, noise: usize, factor: u8) -> u8
    requires { noise ≤ 511 }
    ensures { (result ≡ resolution_in lowest highest noise factor) × (result ≤ highest) }
{
    if factor == 0 {
        0
    } else {
        curve(held_position(noise, factor)).max(lowest).min(highest)
    }
}

// Within the layout's pair.
pub fn calculate_resolution(layout: Layout, factor: u8, noise: usize) -> u8
    requires { LegalLayout layout × (noise ≤ 511) }
    ensures { (result ≡ resolution layout noise factor) × (result ≤ 15) }
{
    let lowest = layout.minimum as u8;
    let highest = layout.maximum as u8;
    resolution_in(lowest, highest, noise, factor)
}

fn band_resolution(
    layout: Layout,
    level: usize,
    boundary: usize,
    factor: u8,
    coded: usize,
    band: usize,
) -> u8
    requires { LegalLayout layout × (level ≤ 511) }
    ensures { (result ≡ cond (ltb band coded) (resolution layout (noise_at level boundary band) factor) 0) × (result ≤ 15) }
{
    if band < coded {
        calculate_resolution(layout, factor, noise_at(level, boundary, band))
    } else {
        0
    }
}

fn channel_resolutions(
    layout: Layout,
    level: usize,
    boundary: usize,
    factors: &[u8],
    coded: usize,
    resolutions: &mut [u8],
)
    requires legal_layout { LegalLayout layout × (level ≤ 511) }
    requires factors_len { (length factors.now ≡ 128) × (length resolutions.old ≡ 128) }
    ensures { resolutions.new ≡ channel_resolutions layout level boundary factors.now coded }
{
    for (b, resolution) in resolutions.iter_mut().enumerate() {
        *resolution = band_resolution(layout, level, boundary, factors[b], coded, b);
    }
}

pub fn calculate_frame_resolutions(
    layout: Layout,
    level: usize,
    boundary: usize,
    factors: &[u8],
    resolutions: &mut [u8],
)
    requires legal_layout { LegalLayout layout }
    requires level_bound { level ≤ 511 }
    requires factors_len { (length factors.now ≡ layout.channels * 128) × (length resolutions.old ≡ layout.channels * 128) }
    ensures { resolutions.new ≡ all_resolutions layout level boundary factors.now }
{
    for c in 0..layout.channels {
        let at = c * 128;
        channel_resolutions(
            layout,
            level,
            boundary,
            &factors[at..at + 128],
            coded_count(layout, c),
            &mut resolutions[at..at + 128],
        );
    }
}
