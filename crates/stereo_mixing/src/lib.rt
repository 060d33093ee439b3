// Request A2, **Intensity stereo**: unmixed spectra are mixed in place, and the intensities of the pairs stored.
#![tactic(auto)]

// The energies of one subframe of a pair, its intensity and its ratio.
pub mod subframe;
// The eight subframes of one pair.
pub mod pair;

ghost use Rattle.std.specs.Prelude.{◌≡◌, ◌<◌, length};
ghost use Rattle.rules.specs.Layout.{LegalLayout, spectrum_length, side_length};
ghost use Rattle.rules_stereo.specs.Mixed.{signal, paired_at, channel_mixed, mixed};

use crate::pair::mix_pair;
use rules::{ChannelType, Layout};

// Is the channel mixed with the next? The next one's kind is not looked at.
fn paired(layout: Layout, c: usize) -> bool
    requires { c < 16 }
    ensures { result ≡ paired_at layout c }
{
    c + 1 < layout.channels && layout.kinds[c].kind == ChannelType::StereoPrimary
}

// The pair is lent as one part, since two parts of a slice cannot be lent at once.
fn mix_channel(layout: Layout, c: usize, spectra: &mut [f32], intensities: &mut [u8])
    requires legal_layout { LegalLayout layout }
    requires c_lt_channels { c < layout.channels }
    requires spectra_len { (length spectra.old ≡ spectrum_length layout) × (length intensities.old ≡ side_length layout) }
    ensures { signal spectra.new intensities.new
        ≡ channel_mixed layout c (signal spectra.old intensities.old) }
{
    if paired(layout, c) {
        let a = c * 1024;
        let i = (c + 1) * 8;
        mix_pair(
            layout,
            &mut spectra[a..a + 2048],
            &mut intensities[i..i + 8],
        );
    }
}

// All channels, in order.
pub fn encode_intensity_stereo(layout: Layout, spectra: &mut [f32], intensities: &mut [u8])
    requires legal_layout { LegalLayout layout }
    requires spectra_len { (length spectra.old ≡ spectrum_length layout) × (length intensities.old ≡ side_length layout) }
    ensures { signal spectra.new intensities.new
        ≡ mixed layout (signal spectra.old intensities.old) }
{
    if layout.stereo == 0 {
        return;
    }
    for c in 0..layout.channels {
        mix_channel(layout, c, spectra, intensities);
    }
}
