// The stage behind its gate, on buffers of exactly document 01's lengths.
pub mod delivery;

ghost use Rattle.std.specs.Prelude.{◌≡◌, pos, length, replicate};
ghost use Rattle.floats.specs.Single.{zero_f};
ghost use Rattle.rules.specs.Layout.{LegalLayout, spectrum_length, factor_length, side_length};
ghost use Rattle.rules.specs.Factor.{all_factors};
ghost use Rattle.rules.specs.Scaling.{all_scaled};
ghost use Rattle.rules.specs.Hfr.{all_side};
ghost use Rattle.rules.specs.Stage.{analysis, stage_left, after_level};
ghost use Rattle.rules.specs.declared.Layout.{Layout};
ghost use Rattle.factors.specs.Finite.{AllFinite};
ghost use Rattle.stage.specs.Delivery.{ExactBuffers};
ghost use Rattle.stage.specs.Lengths.{StageLengths};

use crate::run::delivery::level_to_frame;
use buffers::clear;
use factors::calculate_scale_factors;
use hfr::fill_side;
use rules::{Delivery, Layout, StageRefusal};
use scaling::scale_spectra;

// Factors, scaled values and side values.
fn prepare(
    layout: Layout,
    spectra: &[f32],
    intensities: &[u8],
    scaled: &mut [f32],
    factors: &mut [u8],
    side: &mut [u8],
)
    requires legal_layout { LegalLayout layout }
    requires spectra_len { (length spectra.now ≡ spectrum_length layout) × (length intensities.now ≡ side_length layout) × AllFinite spectra.now }
    requires scaled_len { (length scaled.old ≡ spectrum_length layout) × (length factors.old ≡ factor_length layout) × (length side.old ≡ side_length layout) }
    ensures factored { factors.new ≡ all_factors layout spectra.now }
    ensures rated { scaled.new ≡ all_scaled layout spectra.now (all_factors layout spectra.now) }
    ensures sided { side.new ≡ all_side layout spectra.now
        (all_scaled layout spectra.now (all_factors layout spectra.now)) intensities.now }
{
    calculate_scale_factors(layout, spectra, factors);
    scale_spectra(layout, spectra, factors, scaled);
    fill_side(layout, spectra, scaled, intensities, side);
}

// After a late refusal every written buffer is zero.
fn clear_all(
    scaled: &mut [f32],
    codes: &mut [i32],
    factors: &mut [u8],
    side: &mut [u8],
    frame: &mut [u8],
)
    ensures scaled_after { scaled.new ≡ replicate (length scaled.old) zero_f }
    ensures codes_after { codes.new ≡ replicate (length codes.old) (pos 0) }
    ensures factors_after { factors.new ≡ replicate (length factors.old) 0 }
    ensures side_after { side.new ≡ replicate (length side.old) 0 }
    ensures frame_after { frame.new ≡ replicate (length frame.old) 0 }
{
    clear(scaled);
    clear(codes);
    clear(factors);
    clear(side);
    clear(frame);
}

pub fn run_stage(
    layout: Layout,
    spectra: &[f32],
    intensities: &[u8],
    scaled: &mut [f32],
    codes: &mut [i32],
    factors: &mut [u8],
    side: &mut [u8],
    frame: &mut [u8],
) -> Result<Delivery, StageRefusal>
    requires legal_layout { LegalLayout layout }
    requires stage_lengths { StageLengths layout (length spectra.now) (length intensities.now) (length scaled.old) (length codes.old)
        (length factors.old) (length side.old) (length frame.old) }
    requires all_finite { AllFinite spectra.now }
    ensures { stage_left result scaled.new codes.new factors.new side.new frame.new
        ≡ after_level layout (analysis layout spectra.now intensities.now) }
{
    prepare(layout, spectra, intensities, scaled, factors, side);
    let answer = level_to_frame(layout, scaled, codes, factors, side, frame);
    if answer.is_err() {
        clear_all(scaled, codes, factors, side, frame);
    }
    answer
}
