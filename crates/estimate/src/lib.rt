// Document 01, **Estimate**: the values of all bands, summed from their counts, and the bits with the part that is fixed. The scaled values are not read any
// more: they stand for what the counts are of.
#![tactic(auto)]

// The bits that no level or boundary changes.
pub mod fixed_part;

ghost use Rattle.std.specs.Prelude.{◌≡◌, ◌+◌, ◌*◌, ◌≤◌, ◌<◌, length};
ghost use Rattle.buffers.specs.Walk.{AtMost};
ghost use Rattle.rules.specs.Layout.{factor_length};
ghost use Rattle.rules.specs.Resolution.{resolution};
ghost use Rattle.rules.specs.Estimate.{band_bits, channel_bits, fixed_bits, spectral_bits, used_bits};
ghost use Rattle.resolutions.specs.Stretched.{IsStretched, place_of, Placed};
ghost use Rattle.band_counts.specs.Counts.{BandCounted, ChannelCounted};
ghost use Rattle.estimate.specs.Probe.{ProbeFits};

use band_counts::taken;
use layouts::coded_count;
use resolutions::noise_curve::{place_of, read_curve};
use rules::Layout;

// A band's count at the resolution of a factor, whose place is known, at a noise. A removed band's resolution is 0, and its count is 0.
fn band_bits_at(
    layout: Layout,
    curve: &[u8; 688],
    scaled: &[f32],
    counts: &[i32],
    band: usize,
    factor: u8,
    place: u16,
    noise: usize,
) -> usize
    requires stretched { IsStretched layout curve.now × BandCounted layout.mode scaled.now counts.now band }
    requires counts_len { (length counts.now ≡ 1024) × (band < 128) × (factor ≤ 63) × (place ≡ place_of factor) × (noise ≤ 254) }
    ensures { (result ≡ band_bits layout.mode scaled.now band (resolution layout noise factor)) × (result ≤ 96) }
{
    let r = read_curve(layout, curve, factor, place, noise) as usize;
    taken(counts[band * 8 + r % 8], r)
}

// Of a factor whose place is not kept.
pub fn band_bits(
    layout: Layout,
    curve: &[u8; 688],
    scaled: &[f32],
    counts: &[i32],
    band: usize,
    factor: u8,
    noise: usize,
) -> usize
    requires stretched { IsStretched layout curve.now × BandCounted layout.mode scaled.now counts.now band }
    requires counts_len { (length counts.now ≡ 1024) × (band < 128) × (factor ≤ 63) × (noise ≤ 254) }
    ensures { (result ≡ band_bits layout.mode scaled.now band (resolution layout noise factor)) × (result ≤ 96) }
{
    band_bits_at(
        layout,
        curve,
        scaled,
        counts,
        band,
        factor,
        place_of(factor),
        noise,
    )
}

// A channel's bands from `from` on and below `to`, at one noise.
pub fn channel_bits(
    layout: Layout,
    curve: &[u8; 688],
    scaled: &[f32],
    counts: &[i32],
    factors: &[u8],
    places: &[u16],
    from: usize,
    to: usize,
    noise: usize,
) -> usize
    requires stretched { IsStretched layout curve.now × ChannelCounted layout.mode scaled.now to counts.now × AtMost 63 factors.now }
    requires counts_len { (length counts.now ≡ 1024) × (length factors.now ≡ 128) × (from ≤ to) × (to ≤ 128) × (noise ≤ 254) }
    requires places_len { (length places.now ≡ 128) × Placed 128 factors.now places.now }
    ensures { (channel_bits layout scaled.now factors.now from noise 0 + result
        ≡ channel_bits layout scaled.now factors.now to noise 0) × (result + 96 * from ≤ 96 * to) }
{
    let mut sum: usize = 0;
    for b in from..to {
        sum += band_bits_at(
            layout, curve, scaled, counts, b, factors[b], places[b], noise,
        );
    }
    sum
}

// What every probe of a frame reads: the layout and its noise curve, the scaled values with the counts of their bands, and the factors.
#[derive(Clone, Copy)]
pub struct Probe<'a> {
    pub layout: Layout,
    pub curve: &'a [u8; 688],
    pub scaled: &'a [f32],
    pub counts: &'a [i32],
    pub factors: &'a [u8],
}

// At boundary 0 every band has the level's noise.
fn spectral_total(probe: Probe, places: &[u16], level: usize) -> usize
    requires probe_fits { ProbeFits probe × (level ≤ 254) }
    requires places_len { (length places.now ≡ factor_length probe.layout) × Placed (factor_length probe.layout) probe.factors.now places.now }
    ensures { (result ≡ spectral_bits probe.entry.layout probe.entry.scaled.now probe.entry.factors.now level 0) × (result ≤ 196608) }
{
    let mut sum: usize = 0;
    for c in 0..probe.layout.channels {
        let coded = coded_count(probe.layout, c);
        let a = c * 1024;
        let f = c * 128;
        sum += channel_bits(
            probe.layout,
            probe.curve,
            &probe.scaled[a..a + 1024],
            &probe.counts[a..a + 1024],
            &probe.factors[f..f + 128],
            &places[f..f + 128],
            0,
            coded,
            level,
        );
    }
    sum
}

// The bits of a level at boundary 0, the fixed part being known.
pub fn calculate_used_bits(probe: Probe, places: &[u16], fixed: usize, level: usize) -> usize
    requires probe_fits { ProbeFits probe }
    requires fixed_value { (fixed ≡ fixed_bits probe.layout probe.factors.now) × (fixed ≤ 13152) × (level ≤ 254) }
    requires places_len { (length places.now ≡ factor_length probe.layout) × Placed (factor_length probe.layout) probe.factors.now places.now }
    ensures { result ≡ used_bits probe.entry.layout probe.entry.scaled.now probe.entry.factors.now level 0 }
{
    fixed + spectral_total(probe, places, level)
}
