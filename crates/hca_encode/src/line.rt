// A line of frames by numbers and slices only, no `requires`.
ghost use Rattle.std.specs.Prelude.{◌≡◌, ◌≤◌, length, get_or, Err};
ghost use Rattle.rules.specs.Lent.{overwrite};
ghost use Rattle.rules_line.specs.Line.{line_outcome, line_outcome_by, line_index, line_lent, left_with, line_over};
ghost use Rattle.refusals.specs.Refusals.{refusal_of};
ghost use Rattle.hca_answers.specs.Outcomes.{result_of};
ghost use Rattle.hca_encode.specs.EncodeLine.{c_line_left, tally_in, counts_of, index_in, line_answer_after, IndexFits, LineSmall};
ghost use Rattle.hca_encode.specs.EncodeLine.{c_line_from, c_line_over, c_encode_line};

use hca_answers::{refuse, tell};
use hca_layout::{is_layout, layout_of};
use line_gate::batch_fits;
use line_turns::{Mixed, SingleCall, encode_frames};
use refusals::Refusal;
use rules::{Layout, StageRefusal};
use rules_line::{LineRefusal, Tally};

// 0 where there is no such count.
fn count_at(counts: &[u64], i: usize) -> u64
    ensures { result ≡ get_or counts.now i 0 }
{
    counts.get(i).copied().unwrap_or(0)
}

pub fn tally_in(counts: &[u64]) -> Tally
    ensures { result ≡ tally_in counts.now }
{
    Tally {
        frames: count_at(counts, 0),
        bits: count_at(counts, 1),
        pairs: count_at(counts, 2),
    }
}

pub fn store_tally(tally: Tally, counts: &mut [u64])
    requires { 3 ≤ length counts.old }
    ensures { counts.new ≡ overwrite (counts_of tally) counts.old }
{
    counts[..3].copy_from_slice(&[tally.frames, tally.bits, tally.pairs]);
}

// The index of a refused frame at the second place.
fn name_frame<R: Copy>(refusal: LineRefusal<R>, answer: &mut [u32])
    requires { IndexFits (line_index (Err refusal)) }
    ensures { answer.new ≡ index_in (line_index (Err refusal)) answer.old }
{
    let LineRefusal::Frame(k, _) = refusal else {
        return;
    };
    if answer.len() < 4 {
        return;
    }
    answer[1] = k as u32;
}

// A line's single call, with line_turns' call for the whole line over it, and its refusals' numbers.
pub(crate) trait ToldCall: SingleCall {
    // The whole line.
    fn encode_all(
        &mut self,
        layout: Layout,
        count: usize,
        scaled: &mut [f32],
        codes: &mut [i32],
        factors: &mut [u8],
        side: &mut [u8],
        frames: &mut [u8],
        answers: &mut [u32],
        tally: &mut Tally,
    ) -> Result<(), LineRefusal<Self::Refusal>>
        ensures over { left_with (line_outcome_by Self.refusal result) (line_index result) tally.new (Self.spectra self.new) (Self.intensities self.new)
            scaled.new codes.new factors.new side.new frames.new answers.new
            ≡ line_over Self.step layout count (line_lent (Self.spectra self.old) (Self.intensities self.old)
            scaled.old codes.old factors.old side.old frames.old answers.old tally.old) }
        ensures same_loan { Self.same self.old self.new };

    fn told(refusal: LineRefusal<Self::Refusal>) -> Refusal
        ensures said { result ≡ refusal_of (line_outcome_by Self.refusal (Err refusal)) }
        ensures low { result.number ≤ 18 };
}

impl<'a> ToldCall for Mixed<'a> {
    fn encode_all(
        &mut self,
        layout: Layout,
        count: usize,
        scaled: &mut [f32],
        codes: &mut [i32],
        factors: &mut [u8],
        side: &mut [u8],
        frames: &mut [u8],
        answers: &mut [u32],
        tally: &mut Tally,
    ) -> Result<(), LineRefusal<StageRefusal>> {
        encode_frames(
            layout,
            count,
            self.spectra,
            self.intensities,
            scaled,
            codes,
            factors,
            side,
            frames,
            answers,
            tally,
        )
    }

    fn told(refusal: LineRefusal<StageRefusal>) -> Refusal
        ensures said { result ≡ refusal_of (line_outcome (Err refusal)) }
        ensures low { result.number ≤ 18 }
    {
        refusal.into()
    }
}

// A delivery leaves the answer untouched.
fn store_line<S: ToldCall>(a: Result<(), LineRefusal<S::Refusal>>, answer: &mut [u32]) -> u32
    requires { LineSmall (line_outcome_by S.refusal a) (line_index a) }
    ensures answered { result ≡ result_of (line_outcome_by S.refusal a) }
    ensures shown { answer.new ≡ line_answer_after (line_outcome_by S.refusal a) (line_index a) answer.old }
{
    match a {
        Ok(()) => 0,
        Err(e) => {
            name_frame(e, answer);
            tell(S::told(e), answer)
        }
    }
}

// The line of a layout that is named, its counts stored and its answer told.
fn line_and_store<S: ToldCall>(
    layout: Layout,
    count: usize,
    call: &mut S,
    scaled: &mut [f32],
    codes: &mut [i32],
    factors: &mut [u8],
    side: &mut [u8],
    frames: &mut [u8],
    answers: &mut [u32],
    before: Tally,
    tally: &mut [u64],
    answer: &mut [u32],
) -> u32
    requires tally_len { 3 ≤ length tally.old }
    ensures told { c_line_left result answer.new (S.spectra call.new) (S.intensities call.new) scaled.new codes.new
        factors.new side.new frames.new answers.new tally.new
        ≡ c_line_from (line_over S.step layout count (line_lent (S.spectra call.old)
        (S.intensities call.old) scaled.old codes.old factors.old side.old frames.old
        answers.old before)) (counts_of (line_over S.step layout count (line_lent (S.spectra call.old) (S.intensities call.old)
        scaled.old codes.old factors.old side.old frames.old answers.old
        before)).tally) tally.old answer.old }
    ensures same_loan { S.same call.old call.new }
{
    let mut after = before;
    let a = call.encode_all(
        layout, count, scaled, codes, factors, side, frames, answers, &mut after,
    );
    store_tally(after, tally);
    store_line::<S>(a, answer)
}

// A line over any single call.
pub(crate) fn encode_over<S: ToldCall>(
    layout: &[u32],
    kinds: &[u8],
    count: usize,
    call: &mut S,
    scaled: &mut [f32],
    codes: &mut [i32],
    factors: &mut [u8],
    side: &mut [u8],
    frames: &mut [u8],
    answers: &mut [u32],
    tally: &mut [u64],
    answer: &mut [u32],
) -> u32
    ensures told { c_line_left result answer.new (S.spectra call.new) (S.intensities call.new) scaled.new codes.new
        factors.new side.new frames.new answers.new tally.new
        ≡ c_line_over S.step layout.now kinds.now count
        (line_lent (S.spectra call.old) (S.intensities call.old) scaled.old codes.old factors.old
        side.old frames.old answers.old) tally.old answer.old }
    ensures same_loan { S.same call.old call.new }
{
    if !is_layout(layout, kinds) {
        return refuse(1, 0, answer);
    }
    let before = tally_in(tally);
    if !batch_fits(count, before) {
        return refuse(18, 0, answer);
    }
    if tally.len() < 3 {
        return refuse(2, 0, answer);
    }
    if answer.len() < 4 {
        return 2;
    }
    let l = layout_of(layout, kinds);
    line_and_store(
        l, count, call, scaled, codes, factors, side, frames, answers, before, tally, answer,
    )
}

// A line of frames. tally: frames, bits, pairs; answer: at a refusal the number beside it and, from 3 on, the frame's index.
pub fn encode_line(
    layout: &[u32],
    kinds: &[u8],
    count: usize,
    spectra: &[f32],
    intensities: &[u8],
    scaled: &mut [f32],
    codes: &mut [i32],
    factors: &mut [u8],
    side: &mut [u8],
    frames: &mut [u8],
    answers: &mut [u32],
    tally: &mut [u64],
    answer: &mut [u32],
) -> u32
    ensures { c_line_left result answer.new spectra.now intensities.now scaled.new codes.new
        factors.new side.new frames.new answers.new tally.new
        ≡ c_encode_line layout.now kinds.now count
        (line_lent spectra.now intensities.now scaled.old codes.old factors.old
        side.old frames.old answers.old) tally.old answer.old }
{
    let mut call = Mixed {
        spectra,
        intensities,
    };
    encode_over(
        layout, kinds, count, &mut call, scaled, codes, factors, side, frames, answers, tally,
        answer,
    )
}
