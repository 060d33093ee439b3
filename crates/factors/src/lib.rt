// Scale factors: document 01, **Scale factor**.
#![tactic(auto)]

ghost use Rattle.std.specs.Prelude.{◌≡◌, ◌++◌, ◌+◌, ◌≤◌, ◌<◌, length, get_or, drop};
ghost use Rattle.std.specs.Float.{nan};
ghost use Rattle.buffers.specs.Walk.{build};
ghost use Rattle.rules.specs.Layout.{LegalLayout, spectrum_length, factor_length};
ghost use Rattle.rules.specs.Tables.{scaling_table};
ghost use Rattle.rules.specs.Factor.{factor_of, peak_of, channel_factors, all_factors};
ghost use Rattle.factors.specs.Guess.{guess_of};
ghost use Rattle.factors.specs.Finite.{AllFinite};
ghost use Rattle.factors.specs.Top.{Top};

use floats::{larger, size};
use rules::Layout;

mod numbers;

// An entry of DEQUANTIZER_SCALING_TABLE, which is a `static`: it is read where it lies, and no call takes it along.
pub fn scaling_entry(factor: usize) -> f32
    requires { factor < 64 }
    ensures { result ≡ get_or scaling_table factor nan }
{
    numbers::DEQUANTIZER_SCALING_TABLE[factor]
}

// A value's factor, or one less, from its bits.
fn guess(bits: u32) -> usize
    requires { 0x3415_3066 ≤ bits }
    ensures { (result ≡ guess_of bits) × (result ≤ 62) }
{
    let far = u64::from(bits - 0x3415_3066);
    ((far * 1237) >> 32).min(62) as usize
}

// The number of the table's first 63 entries that are at most the value: guessed from the bits, and
// one comparison. What is below the table, or a NaN, is brought to the float before its first entry.
pub fn find_scale_factor(value: f32) -> u8
    ensures { (result ≡ factor_of value) × (result ≤ 63) }
{
    let v = larger(f32::from_bits(0x342A_8D25), value);
    let g = guess(f32::to_bits(v));
    if scaling_entry(g) <= v {
        (g + 1) as u8
    } else {
        g as u8
    }
}

// The largest magnitude of two subframes, of four, and of a band's eight: by pairs, with no test for a NaN (`floats::magnitude` has one), so that a loop over
// bands takes four at a time.
fn top_of_two(spectra: &[f32], i: usize) -> f32
    requires all_finite { AllFinite spectra.now }
    requires i_in_bounds { i + 128 < length spectra.now }
    ensures { Top spectra.now i 2 result }
{
    larger(size(spectra[i]), size(spectra[i + 128]))
}

fn top_of_four(spectra: &[f32], i: usize) -> f32
    requires all_finite { AllFinite spectra.now }
    requires i_in_bounds { i + 384 < length spectra.now }
    ensures { Top spectra.now i 4 result }
{
    larger(top_of_two(spectra, i), top_of_two(spectra, i + 256))
}

fn top_of(spectra: &[f32], b: usize) -> f32
    requires all_finite { AllFinite spectra.now }
    requires b_in_bounds { b + 896 < length spectra.now }
    ensures { result ≡ peak_of spectra.now b }
{
    larger(top_of_four(spectra, b), top_of_four(spectra, b + 512))
}

// The tops of the first bands, as many as are asked for.
fn fill_tops(spectra: &[f32], tops: &mut [f32])
    requires all_finite { AllFinite spectra.now }
    requires spectra_len { (length spectra.now ≡ 1024) × (length tops.old ≤ 128) }
    ensures { tops.new ≡ build (peak_of spectra.now) (length tops.old) }
{
    for (b, top) in tops.iter_mut().enumerate() {
        *top = top_of(spectra, b);
    }
}

// Their factors.
fn factors_of(tops: &[f32], factors: &mut [u8])
    requires { length tops.now ≡ length factors.old }
    ensures { factors.new ≡ build (λ b. factor_of (get_or tops.now b nan)) (length factors.old) }
{
    for (b, factor) in factors.iter_mut().enumerate() {
        *factor = find_scale_factor(tops[b]);
    }
}

// A channel's 128 factors, of its 1,024 spectra.
fn channel_factors(spectra: &[f32], coded: usize, factors: &mut [u8])
    requires all_finite { AllFinite spectra.now }
    requires spectra_len { (length spectra.now ≡ 1024) × (length factors.old ≡ 128) × (coded ≤ 128) }
    ensures { factors.new ≡ channel_factors spectra.now coded }
{
    let mut tops = [0.0f32; 128];
    fill_tops(spectra, &mut tops[..coded]);
    factors_of(&tops[..coded], &mut factors[..coded]);
    buffers::clear(&mut factors[coded..]);
}

pub fn calculate_scale_factors(layout: Layout, spectra: &[f32], factors: &mut [u8])
    requires legal_layout { LegalLayout layout }
    requires all_finite { AllFinite spectra.now }
    requires spectra_len { (length spectra.now ≡ spectrum_length layout) × (length factors.old ≡ factor_length layout) }
    ensures { factors.new ≡ all_factors layout spectra.now }
{
    for c in 0..layout.channels {
        let a = c * 1024;
        let f = c * 128;
        channel_factors(
            &spectra[a..a + 1024],
            layouts::coded_count(layout, c),
            &mut factors[f..f + 128],
        );
    }
}
