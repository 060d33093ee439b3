// Request A2's stereo stage: from a frame's unmixed spectra to its finished frame, in buffers that the caller lends.
#![tactic(auto)]

ghost use Rattle.std.specs.Prelude.{◌≡◌, ◌≤◌, length, take};
ghost use Rattle.rules.specs.Layout.{LegalLayout, spectrum_length, side_length, room_of};
ghost use Rattle.rules.specs.Stage.{stage_lent, stage_left, stage_room_of};
ghost use Rattle.rules_stereo.specs.Mixed.{signal};
ghost use Rattle.rules_stereo.specs.Stereo.{stereo_left, with_signal, mixed_front, signal_overwrite, stereo_run, encode_stereo_frame};
ghost use Rattle.factors.specs.Finite.{AllFinite};
ghost use Rattle.stage_gate.specs.Gate.{StageHasRoom};

use rules::{Delivery, Layout, Room, StageRefusal, StageRoom};
use rules_stereo::StereoRefusal;
use stage::parts::encode_parts;
use stereo_gate::first_stereo_refusal;
use stereo_mixing::encode_intensity_stereo;

// The parts of the stated lengths are mixed, and the rest stays untouched.
fn mix_parts(layout: Layout, spectra: &mut [f32], intensities: &mut [u8])
    requires legal_layout { LegalLayout layout }
    requires layout_in_bounds { (spectrum_length layout ≤ length spectra.old) × (side_length layout ≤ length intensities.old) }
    ensures whole { signal spectra.new intensities.new
        ≡ signal_overwrite (mixed_front layout (signal spectra.old intensities.old))
        (signal spectra.old intensities.old) }
    ensures front { signal (take (spectrum_length layout) spectra.new) (take (side_length layout) intensities.new)
        ≡ mixed_front layout (signal spectra.old intensities.old) }
{
    let n = layout.channels * 1024;
    let k = layout.channels * 8;
    encode_intensity_stereo(layout, &mut spectra[..n], &mut intensities[..k]);
}

// Behind the gate: the stage's run on what is mixed.
fn encode_mixed(
    layout: Layout,
    spectra: &mut [f32],
    intensities: &mut [u8],
    scaled: &mut [f32],
    codes: &mut [i32],
    factors: &mut [u8],
    side: &mut [u8],
    frame: &mut [u8],
) -> Result<Delivery, StageRefusal>
    requires legal_layout { LegalLayout layout }
    requires stage_has_room { StageHasRoom layout (stage_room_of (length spectra.old) (length intensities.old) (length scaled.old)
        (room_of (length factors.old) (length side.old) (length codes.old) (length frame.old))) }
    requires all_finite { AllFinite (mixed_front layout (signal spectra.old intensities.old)).spectra }
    ensures { with_signal (signal spectra.new intensities.new)
        (stage_left result scaled.new codes.new factors.new side.new frame.new)
        ≡ stereo_run layout (stage_lent spectra.old intensities.old scaled.old codes.old factors.old
        side.old frame.old) }
{
    mix_parts(layout, spectra, intensities);
    encode_parts(
        layout,
        spectra,
        intensities,
        scaled,
        codes,
        factors,
        side,
        frame,
    )
}

// The stereo stage. It takes any arguments: what cannot be done is refused, and the answer says why.
pub fn encode_stereo_frame(
    layout: Layout,
    spectra: &mut [f32],
    intensities: &mut [u8],
    scaled: &mut [f32],
    codes: &mut [i32],
    factors: &mut [u8],
    side: &mut [u8],
    frame: &mut [u8],
) -> Result<Delivery, StereoRefusal>
    ensures { stereo_left result spectra.new intensities.new scaled.new codes.new factors.new
        side.new frame.new
        ≡ encode_stereo_frame layout (stage_lent spectra.old intensities.old scaled.old codes.old
        factors.old side.old frame.old) }
{
    let stored = Room {
        factors: factors.len(),
        side: side.len(),
        codes: codes.len(),
        frame: frame.len(),
    };
    let room = StageRoom {
        spectra: spectra.len(),
        intensities: intensities.len(),
        scaled: scaled.len(),
        stored,
    };
    first_stereo_refusal(layout, room, spectra, intensities)?;
    Ok(encode_mixed(
        layout,
        spectra,
        intensities,
        scaled,
        codes,
        factors,
        side,
        frame,
    )?)
}
