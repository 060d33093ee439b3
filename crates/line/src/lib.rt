// Request A5: a whole line of frames of one layout in one call, from mixed or from unmixed spectra, in buffers that the caller lends.
#![tactic(auto)]

ghost use Rattle.std.specs.Prelude.{◌≡◌};
ghost use Rattle.rules_line.specs.Line.{line_lent, line_left, stereo_line_left, encode_line, encode_stereo_line};

use line_turns::encode_frames;
use line_turns::stereo_line::encode_stereo_frames;
use rules::{Layout, StageRefusal};
use rules_line::{LineRefusal, Tally};
use rules_stereo::StereoRefusal;

// A line, the caller's running tally lent: it is brought up to date for delivered frames only.
pub fn encode_line(
    layout: Layout,
    count: usize,
    spectra: &[f32],
    intensities: &[u8],
    scaled: &mut [f32],
    codes: &mut [i32],
    factors: &mut [u8],
    side: &mut [u8],
    frames: &mut [u8],
    answers: &mut [u32],
    tally: &mut Tally,
) -> Result<(), LineRefusal<StageRefusal>>
    ensures { line_left result tally.new spectra.now intensities.now scaled.new codes.new
        factors.new side.new frames.new answers.new
        ≡ encode_line layout count (line_lent spectra.now intensities.now
        scaled.old codes.old factors.old side.old frames.old answers.old
        tally.old) }
{
    encode_frames(
        layout,
        count,
        spectra,
        intensities,
        scaled,
        codes,
        factors,
        side,
        frames,
        answers,
        tally,
    )
}

// The same from unmixed spectra: those of delivered frames and their intensities are left as mixed.
pub fn encode_stereo_line(
    layout: Layout,
    count: usize,
    spectra: &mut [f32],
    intensities: &mut [u8],
    scaled: &mut [f32],
    codes: &mut [i32],
    factors: &mut [u8],
    side: &mut [u8],
    frames: &mut [u8],
    answers: &mut [u32],
    tally: &mut Tally,
) -> Result<(), LineRefusal<StereoRefusal>>
    ensures { stereo_line_left result tally.new spectra.new intensities.new scaled.new codes.new
        factors.new side.new frames.new answers.new
        ≡ encode_stereo_line layout count (line_lent spectra.old intensities.old
        scaled.old codes.old factors.old side.old frames.old answers.old
        tally.old) }
{
    encode_stereo_frames(
        layout,
        count,
        spectra,
        intensities,
        scaled,
        codes,
        factors,
        side,
        frames,
        answers,
        tally,
    )
}
