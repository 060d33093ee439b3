// The stage behind its gate: of what is lent, the parts of the stated lengths. The stage and the stereo stage call it.
ghost use Rattle.std.specs.Prelude.{◌≡◌, length, take};
ghost use Rattle.rules.specs.Layout.{LegalLayout, spectrum_length, side_length, room_of};
ghost use Rattle.rules.specs.Stage.{stage_lent, stage_left, stage_room_of, analysis, after_level, stage_overwrite};
ghost use Rattle.factors.specs.Finite.{AllFinite};
ghost use Rattle.stage_gate.specs.Gate.{StageHasRoom};

use crate::run::run_stage;
use rules::{Delivery, Layout, StageRefusal};

// The parts of the stated lengths are lent, and the rest stays untouched.
pub fn encode_parts(
    layout: Layout,
    spectra: &[f32],
    intensities: &[u8],
    scaled: &mut [f32],
    codes: &mut [i32],
    factors: &mut [u8],
    side: &mut [u8],
    frame: &mut [u8],
) -> Result<Delivery, StageRefusal>
    requires legal_layout { LegalLayout layout }
    requires stage_has_room { StageHasRoom layout (stage_room_of (length spectra.now) (length intensities.now) (length scaled.old)
        (room_of (length factors.old) (length side.old) (length codes.old) (length frame.old))) }
    requires all_finite { AllFinite (take (spectrum_length layout) spectra.now) }
    ensures { stage_left result scaled.new codes.new factors.new side.new frame.new
        ≡ stage_overwrite (stage_lent spectra.now intensities.now scaled.old codes.old factors.old
        side.old frame.old) (after_level layout
        (analysis layout (take (spectrum_length layout) spectra.now) (take (side_length layout) intensities.now))) }
{
    let n = layout.channels * 1024;
    let k = layout.channels * 8;
    let m = layout.channels * 128;
    let f = layout.frame_size;
    run_stage(
        layout,
        &spectra[..n],
        &intensities[..k],
        &mut scaled[..n],
        &mut codes[..n],
        &mut factors[..m],
        &mut side[..k],
        &mut frame[..f],
    )
}
