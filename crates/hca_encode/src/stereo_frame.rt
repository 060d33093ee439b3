// The stereo stage by numbers and slices only, no `requires`.
ghost use Rattle.std.specs.Prelude.{◌≡◌};
ghost use Rattle.rules.specs.Stage.{stage_lent};
ghost use Rattle.hca_encode.specs.EncodeStereoFrame.{c_stereo_left, c_encode_stereo_frame};

use hca_answers::refuse;
use hca_answers::stereo::store_stereo;
use hca_layout::{is_layout, layout_of};

// The stereo stage. answer: level, boundary, pairs, bits.
pub fn encode_stereo_frame(
    layout: &[u32],
    kinds: &[u8],
    spectra: &mut [f32],
    intensities: &mut [u8],
    scaled: &mut [f32],
    codes: &mut [i32],
    factors: &mut [u8],
    side: &mut [u8],
    frame: &mut [u8],
    answer: &mut [u32],
) -> u32
    ensures { c_stereo_left result answer.new spectra.new intensities.new scaled.new codes.new
        factors.new side.new frame.new
        ≡ c_encode_stereo_frame layout.now kinds.now
        (stage_lent spectra.old intensities.old scaled.old codes.old factors.old
        side.old frame.old) answer.old }
{
    if !is_layout(layout, kinds) {
        return refuse(1, 0, answer);
    }
    if answer.len() < 4 {
        return 2;
    }
    let a = stereo::encode_stereo_frame(
        layout_of(layout, kinds),
        spectra,
        intensities,
        scaled,
        codes,
        factors,
        side,
        frame,
    );
    store_stereo(a, answer)
}
