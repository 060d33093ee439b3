// The frames of a line from unmixed spectra, one after the other: spectra and intensities are lent to be written, and left as mixed.
ghost use Rattle.std.specs.Prelude.{◌≡◌, refl, length, Err};
ghost use Rattle.std.proofs.Common.{◌∙◌};
ghost use Rattle.rules_stereo.specs.Stereo.{stereo_outcome, encode_stereo_frame};
ghost use Rattle.rules_line.specs.Line.{line_lent, stereo_line_left, encode_stereo_line};
ghost use Rattle.rules_line.proofs.Answers.{stereo_refuses};
ghost use Rattle.line_turns.specs.Bounded.{stereo_bounded};

use crate::{SingleCall, encode_gated};
use line_gate::part_start;
use rules::{Delivery, Layout};
use rules_line::{LineRefusal, Tally};
use rules_stereo::StereoRefusal;
use stereo::encode_stereo_frame;

// The stereo stage, which mixes what it is lent in place.
#[derive(Drop)]
pub struct Unmixed<'a> {
    pub spectra: &'a mut [f32],
    pub intensities: &'a mut [u8],
}

impl<'a> SingleCall for Unmixed<'a> {
    type Refusal = StereoRefusal;

    ghost step = { encode_stereo_frame };

    ghost refusal = { λ r. stereo_outcome (Err r) };

    ghost spectra = { λ x. x.spectra.now };

    ghost intensities = { λ x. x.intensities.now };

    ghost same = { λ x y. ((y.spectra.ghost_name ≡ x.spectra.ghost_name) × (y.intensities.ghost_name ≡ x.intensities.ghost_name))
        × ((length y.spectra.now ≡ length x.spectra.now) × (length y.intensities.now ≡ length x.intensities.now)) };

    fn lengths(&self) -> (usize, usize) {
        (self.spectra.len(), self.intensities.len())
    }

    fn encode_part(
        &mut self,
        layout: Layout,
        k: usize,
        scaled: &mut [f32],
        codes: &mut [i32],
        factors: &mut [u8],
        side: &mut [u8],
        frames: &mut [u8],
    ) -> Result<Delivery, StereoRefusal> {
        let n = layout.channels * 1024;
        let m = layout.channels * 8;
        let f = layout.frame_size;
        let a = part_start(k, n);
        let i = part_start(k, m);
        let b = part_start(k, f);
        encode_stereo_frame(
            layout,
            &mut self.spectra[a..a + n],
            &mut self.intensities[i..i + m],
            scaled,
            codes,
            factors,
            side,
            &mut frames[b..b + f],
        )
    }

    ghost bounded = { stereo_bounded };

    ghost refuses = { stereo_refuses };

    ghost same_none = { λ x. ((refl, refl), (refl, refl)) };

    ghost same_more = { λ x y z p q. ((q.0.0 ∙ p.0.0, q.0.1 ∙ p.0.1), (q.1.0 ∙ p.1.0, q.1.1 ∙ p.1.1)) };

    ghost same_long = { λ x y p. p.1 };
}

// A line, the tally brought up to date for delivered frames only. It takes any arguments: what cannot be done is refused, and the answer says why.
pub fn encode_stereo_frames(
    layout: Layout,
    count: usize,
    spectra: &mut [f32],
    intensities: &mut [u8],
    scaled: &mut [f32],
    codes: &mut [i32],
    factors: &mut [u8],
    side: &mut [u8],
    frames: &mut [u8],
    answers: &mut [u32],
    tally: &mut Tally,
) -> Result<(), LineRefusal<StereoRefusal>>
    ensures { stereo_line_left result tally.new spectra.new intensities.new scaled.new codes.new
        factors.new side.new frames.new answers.new
        ≡ encode_stereo_line layout count (line_lent spectra.old intensities.old
        scaled.old codes.old factors.old side.old frames.old answers.old tally.old) }
{
    let mut call = Unmixed {
        spectra,
        intensities,
    };
    encode_gated(
        layout, count, &mut call, scaled, codes, factors, side, frames, answers, tally,
    )
}
