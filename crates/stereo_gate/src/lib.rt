// What the stereo stage refuses before anything is written: 1 to 4 as the stage, then 17.
#![tactic(auto)]

ghost use Rattle.std.specs.Prelude.{◌≡◌, not, ◌||◌, ◌≤◌, ltb, length};
ghost use Rattle.std.proofs.Math.Option.{none};
ghost use Rattle.std.specs.Float.{binary32};
ghost use Rattle.std.specs.Float.Ieee.{of_bits, lt};
ghost use Rattle.std.specs.Float.Ieee.Scale.{finite};
ghost use Rattle.buffers.specs.Walk.{first};
ghost use Rattle.floats.specs.Single.{abs_f};
ghost use Rattle.rules.specs.Layout.{LegalLayout, spectrum_length};
ghost use Rattle.rules.specs.Stage.{bad_spectrum};
ghost use Rattle.rules_stereo.specs.Stereo.{too_loud, judged_loud, stereo_gate};
ghost use Rattle.stage_gate.specs.Gate.{judged_spectra};
ghost use Rattle.stereo_gate.specs.StereoGates.{stereo_gate_outcome};

use rules::{Layout, StageRefusal, StageRoom};
use rules_stereo::StereoRefusal;
use stage_gate::{first_bad_spectrum, refusal_before_spectra};

// A NaN, an infinity, or a magnitude above 65,536. It is compiled to one comparison.
fn is_outside(x: f32) -> bool
    ensures { result ≡ not (finite x) || lt (of_bits binary32 0x47800000) (abs_f x) }
{
    !((-65536.0 <= x) & (x <= 65536.0))
}

// Whether there is a bad one or a loud one. It goes on behind the first, so that the values are compiled to run side by side.
fn has_outside(spectra: &[f32]) -> bool
    ensures { result ≡ ltb (first (bad_spectrum spectra.now) (length spectra.now)) (length spectra.now)
        || ltb (first (too_loud spectra.now) (length spectra.now)) (length spectra.now) }
{
    let mut found = false;
    for &x in spectra {
        found |= is_outside(x);
    }
    found
}

// 4 and 17 behind 1 to 3: one pass where neither comes.
fn judge_spectra(layout: Layout, spectra: &[f32]) -> Result<(), StereoRefusal>
    requires legal_layout { LegalLayout layout }
    requires layout_in_bounds { spectrum_length layout ≤ length spectra.now }
    ensures { stereo_gate_outcome result
        ≡ judged_loud (judged_spectra none layout spectra.now) layout spectra.now }
{
    let judged = &spectra[..layout.channels * 1024];
    if !has_outside(judged) {
        return Ok(());
    }
    match first_bad_spectrum(judged) {
        Some(i) => Err(StereoRefusal::Stage(StageRefusal::BadSpectrum(i))),
        None => Err(StereoRefusal::TooLoud),
    }
}

// The first refusal in request A2's order.
pub fn first_stereo_refusal(
    layout: Layout,
    room: StageRoom,
    spectra: &[f32],
    intensities: &[u8],
) -> Result<(), StereoRefusal>
    requires { (room.spectra ≡ length spectra.now) × (room.intensities ≡ length intensities.now) }
    ensures { stereo_gate_outcome result ≡ stereo_gate layout room spectra.now intensities.now }
{
    refusal_before_spectra(layout, room, intensities)?;
    judge_spectra(layout, spectra)
}
