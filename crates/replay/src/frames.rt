// Frame-stage cases.
use crate::lent::lent;
use refusals::Refusal;
use replay_vectors::cursor::{Cursor, MOST};
use replay_vectors::outcome::{Delivered, Outcome, Verdict};
use replay_vectors::sums::{sum_bytes, sum_words};
use rules::Layout;

// The body goes on with the five lengths, then the answer and the sums that are to come. Every byte of every written buffer is 0x5A before the call.
fn judge_stage(
    layout: Layout,
    spectra: &[f32],
    intensities: &[u8],
    mut body: Cursor<'_>,
) -> Outcome {
    let lengths: [u32; 5] = body.words();
    let mut scaled = [15365221879119872.0f32; MOST];
    let mut codes = [0x5A5A_5A5Ai32; MOST];
    let mut factors = [0x5Au8; 2048];
    let mut side = [0x5Au8; 128];
    let mut frame = [0x5Au8; 2048];
    let scaled = lent(&mut scaled, lengths[0]);
    let codes = lent(&mut codes, lengths[1]);
    let factors = lent(&mut factors, lengths[2]);
    let side = lent(&mut side, lengths[3]);
    let frame = lent(&mut frame, lengths[4]);
    let answer = stage::encode_frame(
        layout,
        spectra,
        intensities,
        scaled,
        codes,
        factors,
        side,
        frame,
    );
    let answer = answer.map(Delivered::Frame).map_err(Refusal::from);
    let sums = [
        sum_words(scaled),
        sum_words(codes),
        sum_bytes(factors),
        sum_bytes(side),
        sum_bytes(frame),
    ];
    Outcome::judged(body, answer, sums)
}

pub(crate) fn stage_case(mut body: Cursor<'_>) -> Outcome {
    let Some(layout) = body.layout() else {
        return Outcome::not_run(Verdict::Skipped);
    };
    let mut spectra = [0.0f32; MOST];
    let n = body.list(&mut spectra);
    let intensities = body.counted_bytes();
    judge_stage(layout, &spectra[..n], intensities, body)
}
