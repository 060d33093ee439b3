// A line of frames from unmixed spectra, by numbers and slices only, no `requires`.
ghost use Rattle.std.specs.Prelude.{◌≡◌, ◌≤◌, Err};
ghost use Rattle.rules_line.specs.Line.{stereo_line_outcome, line_lent};
ghost use Rattle.refusals.specs.Refusals.{refusal_of};
ghost use Rattle.hca_encode.specs.EncodeLine.{c_line_left, c_encode_stereo_line};

use crate::line::{ToldCall, encode_over};
use line_turns::stereo_line::{Unmixed, encode_stereo_frames};
use refusals::Refusal;
use rules::Layout;
use rules_line::{LineRefusal, Tally};
use rules_stereo::StereoRefusal;

impl<'a> ToldCall for Unmixed<'a> {
    fn encode_all(
        &mut self,
        layout: Layout,
        count: usize,
        scaled: &mut [f32],
        codes: &mut [i32],
        factors: &mut [u8],
        side: &mut [u8],
        frames: &mut [u8],
        answers: &mut [u32],
        tally: &mut Tally,
    ) -> Result<(), LineRefusal<StereoRefusal>> {
        encode_stereo_frames(
            layout,
            count,
            &mut *self.spectra,
            &mut *self.intensities,
            scaled,
            codes,
            factors,
            side,
            frames,
            answers,
            tally,
        )
    }

    fn told(refusal: LineRefusal<StereoRefusal>) -> Refusal
        ensures said { result ≡ refusal_of (stereo_line_outcome (Err refusal)) }
        ensures low { result.number ≤ 18 }
    {
        refusal.into()
    }
}

// A line of frames; spectra and intensities are left as mixed. tally: frames, bits, pairs; answer: at a refusal the number beside it and, from 3 on, the
// index of its frame.
pub fn encode_stereo_line(
    layout: &[u32],
    kinds: &[u8],
    count: usize,
    spectra: &mut [f32],
    intensities: &mut [u8],
    scaled: &mut [f32],
    codes: &mut [i32],
    factors: &mut [u8],
    side: &mut [u8],
    frames: &mut [u8],
    answers: &mut [u32],
    tally: &mut [u64],
    answer: &mut [u32],
) -> u32
    ensures { c_line_left result answer.new spectra.new intensities.new scaled.new codes.new
        factors.new side.new frames.new answers.new tally.new
        ≡ c_encode_stereo_line layout.now kinds.now count
        (line_lent spectra.old intensities.old scaled.old codes.old factors.old
        side.old frames.old answers.old) tally.old answer.old }
{
    let mut call = Unmixed {
        spectra,
        intensities,
    };
    encode_over(
        layout, kinds, count, &mut call, scaled, codes, factors, side, frames, answers, tally,
        answer,
    )
}
