// Document 01, **Code**: the codes of all channels, by channel, subframe and band. The scaled values are within the clip, so that no clamp acts and a code is
// had without a branch; a band's eight are worked out one after the other, and clang takes four bands at a time.
#![tactic(auto)]

// The codes of one band.
mod band;

ghost use Rattle.std.specs.Prelude.{◌≡◌, ◌-◌, ◌^◌, ◌≤◌, ◌<◌, pos, length, sum};
ghost use Rattle.buffers.specs.Walk.{AtMost};
ghost use Rattle.rules.specs.Layout.{LegalLayout, spectrum_length, factor_length};
ghost use Rattle.rules.specs.Code.{code_at, channel_codes, all_codes};
ghost use Rattle.within.specs.Within.{AllWithin};
ghost use Rattle.codes.specs.Bands.{band_laid, bands_laid, SilentFrom};

use crate::band::band_codes;
use rules::{Layout, Mode};

// One sum for eight tests: an addition has no branch.
fn sum_of_eight(eight: &[u8]) -> u8
    requires { sum eight.now < 2 ^ 8 }
    ensures { result ≡ sum eight.now }
{
    eight.iter().sum()
}

// How many bands are worked out, a multiple of 8: behind them every resolution is 0.
fn used_bands(resolutions: &[u8]) -> usize
    requires { AtMost 15 resolutions.now × (length resolutions.now ≡ 128) }
    ensures { (result ≤ 128) × SilentFrom result resolutions.now }
{
    for n in (0..16).rev() {
        if sum_of_eight(&resolutions[n * 8..n * 8 + 8]) != 0 {
            return n * 8 + 8;
        }
    }
    0
}

// The first n bands.
fn lay_codes(mode: Mode, n: usize, resolutions: &[u8], scaled: &[f32], codes: &mut [i32])
    requires at_most { AtMost 15 resolutions.now × AllWithin scaled.now × (n ≤ 128) }
    requires resolutions_len { (length resolutions.now ≡ 128) × (length scaled.now ≡ 1024) × (length codes.old ≡ 1024) }
    ensures { codes.new ≡ bands_laid (λ b s. code_at mode resolutions.now scaled.now s b) 0 n codes.old }
{
    for b in 0..n {
        band_codes(mode, resolutions[b], scaled, b, codes);
    }
}

fn clear_band(band: usize, codes: &mut [i32])
    requires { (band < 128) × (length codes.old ≡ 1024) }
    ensures { codes.new ≡ band_laid (λ s. pos 0) band 8 codes.old }
{
    for s in 0..8 {
        codes[s * 128 + band] = 0;
    }
}

// The others.
fn clear_from(start: usize, codes: &mut [i32])
    requires { (start ≤ 128) × (length codes.old ≡ 1024) }
    ensures { codes.new ≡ bands_laid (λ b s. pos 0) start (128 - start) codes.old }
{
    for b in start..128 {
        clear_band(b, codes);
    }
}

fn channel_codes(mode: Mode, resolutions: &[u8], scaled: &[f32], codes: &mut [i32])
    requires at_most { AtMost 15 resolutions.now × AllWithin scaled.now }
    requires resolutions_len { (length resolutions.now ≡ 128) × (length scaled.now ≡ 1024) × (length codes.old ≡ 1024) }
    ensures { codes.new ≡ channel_codes mode resolutions.now scaled.now }
{
    let n = used_bands(resolutions);
    lay_codes(mode, n, resolutions, scaled, codes);
    clear_from(n, codes);
}

// Of every channel, at the resolutions of its bands.
pub fn quantize_spectra(layout: Layout, resolutions: &[u8], scaled: &[f32], codes: &mut [i32])
    requires legal_layout { LegalLayout layout }
    requires at_most { AtMost 15 resolutions.now × AllWithin scaled.now }
    requires resolutions_len { (length resolutions.now ≡ factor_length layout) × (length scaled.now ≡ spectrum_length layout)
        × (length codes.old ≡ spectrum_length layout) }
    ensures { codes.new ≡ all_codes layout resolutions.now scaled.now }
{
    for c in 0..layout.channels {
        let a = c * 1024;
        let f = c * 128;
        channel_codes(
            layout.mode,
            &resolutions[f..f + 128],
            &scaled[a..a + 1024],
            &mut codes[a..a + 1024],
        );
    }
}
