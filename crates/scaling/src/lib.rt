// Scaled spectra: document 01, **Scaling**.
#![tactic(auto)]

ghost use Rattle.std.specs.Prelude.{◌≡◌, ◌++◌, ℕ, ◌+◌, ◌≤◌, ◌<◌, length, get_or, drop};
ghost use Rattle.std.specs.Float.{nan};
ghost use Rattle.std.specs.Float.Ieee.{neg};
ghost use Rattle.buffers.specs.Walk.{build};
ghost use Rattle.floats.specs.Single.{held_f};
ghost use Rattle.rules.specs.Layout.{LegalLayout, spectrum_length, factor_length};
ghost use Rattle.rules.specs.Scaling.{clip, scale_of, scaled_value, channel_scaled, all_scaled};
ghost use Rattle.scaling.specs.Bands.{coded_factor, stored_band, entry_at, Scaled};

use factors::scaling_entry;
use floats::{larger, smaller};
use rules::Layout;

// x held within ± the clip: two instructions. It is `floats::hold`, whose order of tests takes six.
fn held(x: f32) -> f32
    ensures { result ≡ held_f (neg clip) clip x }
{
    let clip: f32 = 0.999_999_9;
    larger(smaller(x, clip), -clip)
}

// A value by its factor and the factor's scale. 0.0 at factor 0 is chosen last, so that the choice is no branch.
fn value_of(x: f32, factor: u8, scale: f32) -> f32
    requires { scale ≡ scale_of factor }
    ensures { result ≡ scaled_value factor x }
{
    let y = held(x * scale);
    if factor == 0 { 0.0 } else { y }
}

// The values of two subframes of a band, the first at spectra[i], to scaled[at] and the next; of four; of eight.
fn scale_two(spectra: &[f32], i: usize, factor: u8, scale: f32, scaled: &mut [f32], at: usize)
    requires scale_value { scale ≡ scale_of factor }
    requires i_in_bounds { (i + 128 < length spectra.now) × (at + 1 < length scaled.old) }
    ensures { scaled.new ≡ stored_band spectra.now factor i at 2 scaled.old }
{
    scaled[at] = value_of(spectra[i], factor, scale);
    scaled[at + 1] = value_of(spectra[i + 128], factor, scale);
}

fn scale_four(spectra: &[f32], i: usize, factor: u8, scale: f32, scaled: &mut [f32], at: usize)
    requires scale_value { scale ≡ scale_of factor }
    requires i_in_bounds { (i + 384 < length spectra.now) × (at + 3 < length scaled.old) }
    ensures { scaled.new ≡ stored_band spectra.now factor i at 4 scaled.old }
{
    scale_two(spectra, i, factor, scale, scaled, at);
    scale_two(spectra, i + 256, factor, scale, scaled, at + 2);
}

fn scale_band(spectra: &[f32], b: usize, factor: u8, scale: f32, scaled: &mut [f32], at: usize)
    requires scale_value { scale ≡ scale_of factor }
    requires b_in_bounds { (b + 896 < length spectra.now) × (at + 7 < length scaled.old) }
    ensures { scaled.new ≡ stored_band spectra.now factor b at 8 scaled.old }
{
    scale_four(spectra, b, factor, scale, scaled, at);
    scale_four(spectra, b + 512, factor, scale, scaled, at + 4);
}

// The factors that the bands are scaled by: past the coded count 0, which clears them.
fn coded_factors(factors: &[u8], coded: usize) -> [u8; 128]
    requires { (coded ≤ length factors.now) × (coded ≤ 128) }
    ensures { result ≡ build (coded_factor factors.now coded) 128 }
{
    let mut used = [0u8; 128];
    used[..coded].copy_from_slice(&factors[..coded]);
    used
}

// The table's entries of the factors, as a column.
fn fill_entries(used: &[u8], entries: &mut [f32])
    requires by_index { (i : ℕ) → get_or used.now i 0 < 64 }
    requires used_len { length entries.old ≤ length used.now }
    ensures { entries.new ≡ build (entry_at used.now) (length entries.old) }
{
    for (b, entry) in entries.iter_mut().enumerate() {
        *entry = scaling_entry(used[b] as usize);
    }
}

// The first bands, as many as there are entries. The loop goes over bands, so that four of them share an instruction, the division too.
fn scale_bands(spectra: &[f32], used: &[u8], entries: &[f32], scaled: &mut [f32])
    requires spectra_len { (length spectra.now ≡ 1024) × (length scaled.old ≡ 1024) × (length entries.now ≤ 128) }
    requires used_len { length entries.now ≤ length used.now }
    requires by_index { (b : ℕ) → b < length entries.now → get_or entries.now b nan ≡ entry_at used.now b }
    ensures { Scaled spectra.now used.now (length entries.now) scaled.new }
{
    for (b, &entry) in entries.iter().enumerate() {
        scale_band(spectra, b, used[b], 1.0 / entry, scaled, b * 8);
    }
}

// A channel's 1,024 scaled values, by band and subframe. The bands go by eights: those past the coded count are 0.0 either way.
fn scale_channel(spectra: &[f32], factors: &[u8], coded: usize, scaled: &mut [f32])
    requires by_index { (i : ℕ) → get_or factors.now i 0 < 64 }
    requires spectra_len { (length spectra.now ≡ 1024) × (length factors.now ≡ 128) × (length scaled.old ≡ 1024) × (coded ≤ 128) }
    ensures { scaled.new ≡ channel_scaled spectra.now factors.now coded }
{
    let used = coded_factors(factors, coded);
    let mut entries = [0.0f32; 128];
    let n = coded.div_ceil(8) * 8;
    fill_entries(&used, &mut entries[..n]);
    scale_bands(spectra, &used, &entries[..n], scaled);
    buffers::clear(&mut scaled[n * 8..]);
}

pub fn scale_spectra(layout: Layout, spectra: &[f32], factors: &[u8], scaled: &mut [f32])
    requires legal_layout { LegalLayout layout }
    requires by_index { (i : ℕ) → get_or factors.now i 0 < 64 }
    requires spectra_len { (length spectra.now ≡ spectrum_length layout) × (length factors.now ≡ factor_length layout)
        × (length scaled.old ≡ spectrum_length layout) }
    ensures { scaled.new ≡ all_scaled layout spectra.now factors.now }
{
    for c in 0..layout.channels {
        let a = c * 1024;
        let f = c * 128;
        scale_channel(
            &spectra[a..a + 1024],
            &factors[f..f + 128],
            layouts::coded_count(layout, c),
            &mut scaled[a..a + 1024],
        );
    }
}
