// Document 01, **HFR**: the scales and the side values.
#![tactic(auto)]

// A group's two averages, and the value that its scale is the factor of.
pub mod averages;

ghost use Rattle.std.specs.Prelude.{◌≡◌, cond, ◌≤◌, ◌<◌, ltb, length};
ghost use Rattle.rules.specs.Layout.{LegalLayout, spectrum_length, side_length};
ghost use Rattle.floats.specs.Single.{mean};
ghost use Rattle.rules.specs.Factor.{factor_of};
ghost use Rattle.rules.specs.Hfr.{group_value, all_side, intensity_side, scale_side, side_of};
ghost use Rattle.hfr.specs.Sums.{scale_at, four_set};

use crate::averages::{group_value, hfr_source_averages, hfr_spectra_averages};
use floats::Average;
use rules::Layout;

// A group's scale, of its two averages; 0 past the last group.
fn scale_of(groups: usize, group: usize, spectrum: Average, source: Average) -> u8
    requires count_bound { (spectrum.count ≤ 128) × (source.count ≤ 128) }
    ensures { result ≡ cond (ltb group groups) (factor_of (group_value (mean spectrum) (mean source))) 0 }
{
    if group < groups {
        factors::find_scale_factor(group_value(spectrum.mean(), source.mean()))
    } else {
        0
    }
}

// A secondary's side values: its intensities.
fn copy_intensities(intensities: &[u8], side: &mut [u8])
    requires { (length intensities.now ≡ 8) × (length side.old ≡ 8) }
    ensures { side.new ≡ intensity_side intensities.now }
{
    side.copy_from_slice(intensities);
}

// The four side values from `group` on.
fn four_scales(layout: Layout, spectra: &[f32], scaled: &[f32], group: usize, side: &mut [u8])
    requires legal_layout { LegalLayout layout }
    requires spectra_len { (length spectra.now ≡ 1024) × (length scaled.now ≡ 1024) × (length side.old ≡ 8) × (group ≤ 4) }
    ensures { side.new ≡ four_set (scale_at layout spectra.now scaled.now) group side.old }
{
    let groups = layouts::groups(layout);
    let spectrum = hfr_spectra_averages(layout, spectra, group);
    let source = hfr_source_averages(layout, scaled, group);
    side[group] = scale_of(groups, group, spectrum.a, source.a);
    side[group + 1] = scale_of(groups, group + 1, spectrum.b, source.b);
    side[group + 2] = scale_of(groups, group + 2, spectrum.c, source.c);
    side[group + 3] = scale_of(groups, group + 3, spectrum.d, source.d);
}

// Any other channel's side values: the scales of its groups, and zeros.
fn fill_scales(layout: Layout, spectra: &[f32], scaled: &[f32], side: &mut [u8])
    requires legal_layout { LegalLayout layout }
    requires spectra_len { (length spectra.now ≡ 1024) × (length scaled.now ≡ 1024) × (length side.old ≡ 8) }
    ensures { side.new ≡ scale_side layout spectra.now scaled.now }
{
    four_scales(layout, spectra, scaled, 0, side);
    four_scales(layout, spectra, scaled, 4, side);
}

// A channel's eight side values, of the buffers of all channels.
fn channel_side(
    layout: Layout,
    channel: usize,
    spectra: &[f32],
    scaled: &[f32],
    intensities: &[u8],
    side: &mut [u8],
)
    requires legal_layout { LegalLayout layout }
    requires channel_lt_channels { (channel < layout.channels) × (length spectra.now ≡ spectrum_length layout) × (length scaled.now ≡ spectrum_length layout) }
    requires intensities_len { (length intensities.now ≡ side_length layout) × (length side.old ≡ 8) }
    ensures { side.new ≡ side_of layout spectra.now scaled.now intensities.now channel }
{
    if layouts::is_secondary(layout, channel) {
        let s = channel * 8;
        copy_intensities(&intensities[s..s + 8], side);
    } else {
        let a = channel * 1024;
        fill_scales(layout, &spectra[a..a + 1024], &scaled[a..a + 1024], side);
    }
}

pub fn fill_side(
    layout: Layout,
    spectra: &[f32],
    scaled: &[f32],
    intensities: &[u8],
    side: &mut [u8],
)
    requires legal_layout { LegalLayout layout }
    requires spectra_len { (length spectra.now ≡ spectrum_length layout) × (length scaled.now ≡ spectrum_length layout) }
    requires intensities_len { (length intensities.now ≡ side_length layout) × (length side.old ≡ side_length layout) }
    ensures { side.new ≡ all_side layout spectra.now scaled.now intensities.now }
{
    for c in 0..layout.channels {
        let s = c * 8;
        channel_side(layout, c, spectra, scaled, intensities, &mut side[s..s + 8]);
    }
}
