// Request A2, **Intensity stereo**: the eight subframes of one pair are mixed in place, and its intensities stored.
ghost use Rattle.std.specs.Prelude.{◌≡◌, ◌+◌, ◌≤◌, length};
ghost use Rattle.rules.specs.Layout.{LegalLayout};
ghost use Rattle.rules_stereo.specs.Mixed.{signal, bands_mixed, subframes_mixed};

use crate::subframe::{quantize_intensity, stereo_energy};
use rules::Layout;

// `count` bands of a pair from `at` on: the sum times the ratio on the left, +0.0 on the right.
pub fn mix_stereo_bands(pair: &mut [f32], at: usize, count: usize, ratio: f32)
    requires { (at + count ≤ 1024) × (length pair.old ≡ 2048) }
    ensures { pair.new ≡ bands_mixed ratio at count pair.old }
{
    for i in at..at + count {
        let both = pair[i] + pair[1024 + i];
        pair[i] = both * ratio;
        pair[1024 + i] = 0.0;
    }
}

// A pair's eight subframes; the intensities are the right's.
pub fn mix_pair(layout: Layout, pair: &mut [f32], intensities: &mut [u8])
    requires legal_layout { LegalLayout layout }
    requires pair_len { (length pair.old ≡ 2048) × (length intensities.old ≡ 8) }
    ensures { signal pair.new intensities.new
        ≡ subframes_mixed layout 8 (signal pair.old intensities.old) }
{
    let count = layout.total - layout.base;
    for (s, intensity) in intensities.iter_mut().enumerate() {
        let at = s * 128 + layout.base;
        let e = stereo_energy(pair, at, count);
        let q = quantize_intensity(e);
        *intensity = q.value;
        mix_stereo_bands(pair, at, count, q.ratio);
    }
}
