// The frame stage by numbers and slices only, no `requires`.
ghost use Rattle.std.specs.Prelude.{◌≡◌};
ghost use Rattle.rules.specs.Stage.{stage_lent};
ghost use Rattle.hca_encode.specs.EncodeFrame.{c_stage_left, c_encode_frame};

use hca_answers::{refuse, store_stage};
use hca_layout::{is_layout, layout_of};

// The frame stage. answer: level, boundary, pairs, bits.
pub fn encode_frame(
    layout: &[u32],
    kinds: &[u8],
    spectra: &[f32],
    intensities: &[u8],
    scaled: &mut [f32],
    codes: &mut [i32],
    factors: &mut [u8],
    side: &mut [u8],
    frame: &mut [u8],
    answer: &mut [u32],
) -> u32
    ensures { c_stage_left result answer.new scaled.new codes.new factors.new side.new
        frame.new ≡ c_encode_frame layout.now kinds.now
        (stage_lent spectra.now intensities.now scaled.old codes.old factors.old
        side.old frame.old) answer.old }
{
    if !is_layout(layout, kinds) {
        return refuse(1, 0, answer);
    }
    if answer.len() < 4 {
        return 2;
    }
    let a = stage::encode_frame(
        layout_of(layout, kinds),
        spectra,
        intensities,
        scaled,
        codes,
        factors,
        side,
        frame,
    );
    store_stage(a, answer)
}
