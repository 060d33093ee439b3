// The frames of a line one after the other, behind the line's gate; and the whole call. Here from mixed spectra.
#![tactic(auto)]

// A line from unmixed spectra.
pub mod stereo_line;

ghost use Rattle.std.specs.Prelude.{◌≡◌, refl, ◌+◌, ◌*◌, ◌≤◌, ℕ, Float, List, length, Err};
ghost use Rattle.std.proofs.Common.{ap, ◌∙◌};
ghost use Rattle.rules.specs.Layout.{LegalLayout, room_of};
ghost use Rattle.rules.specs.Refusals.{Outcome, stage_outcome};
ghost use Rattle.rules.specs.Stage.{stage_lent, stage_room_of};
ghost use Rattle.rules_line.specs.Line.{Step, line_lent, line_left, left_with, line_outcome_by, line_index, stage_step, step_at, line_turn, line_after};
ghost use Rattle.rules_line.specs.Line.{line_over, encode_line};
ghost use Rattle.rules_line.specs.Asked.{Batch, LineHasRoom, OnTheWay};
ghost use Rattle.rules_line.proofs.Answers.{Refuses, stage_refuses};
ghost use Rattle.line_turns.specs.Turn.{Turn, left_by, call_outcome};
ghost use Rattle.line_turns.specs.Bounded.{BoundedStep, stage_bounded};

use line_gate::{line_gate, part_start};
use rules::{Delivery, Layout, Room, StageRefusal, StageRoom};
use rules_line::{LineRefusal, Tally, store_answers};
use stage::encode_frame;

// The single call of a line, with the spectra and intensities of all frames that it is lent.
pub trait SingleCall {
    type Refusal: Copy;

    // What it does to a frame, and what its refusals mean.
    ghost step: { Step };

    ghost refusal: { Self.Refusal → Outcome };
    // What is lent now, and that a later loan is the same one, written or not.
    ghost spectra: { Self → List Float };

    ghost intensities: { Self → List ℕ };

    ghost same: { Self → Self → Type 0 };

    // Of spectra and intensities.
    fn lengths(&self) -> (usize, usize)
        ensures { (result.0 ≡ length (spectra self.now)) × (result.1 ≡ length (intensities self.now)) };

    // The call on frame k's own parts.
    fn encode_part(
        &mut self,
        layout: Layout,
        k: usize,
        scaled: &mut [f32],
        codes: &mut [i32],
        factors: &mut [u8],
        side: &mut [u8],
        frames: &mut [u8],
    ) -> Result<Delivery, Self::Refusal>
        requires legal_layout { LegalLayout layout }
        requires turn { Turn layout k (length (spectra self.old)) (length (intensities self.old)) (length frames.old) }
        ensures placed { left_by (call_outcome refusal result) (spectra self.new) (intensities self.new) scaled.new codes.new factors.new
            side.new frames.new
            ≡ step_at step layout k (stage_lent (spectra self.old) (intensities self.old) scaled.old codes.old
            factors.old side.old frames.old) }
        ensures same_loan { same self.old self.new };

    ghost bounded: { BoundedStep step };

    ghost refuses: { (r : Self.Refusal) → Refuses (refusal r) };

    ghost same_none: { (x : Self) → same x x };

    ghost same_more: { (x y z : Self) → same x y → same y z → same x z };

    ghost same_long: { (x y : Self) → same x y → (length (spectra y) ≡ length (spectra x)) × (length (intensities y) ≡ length (intensities x)) };
}

// Frame k's turn: what the single call gives, and what that means for the line.
fn encode_turn<S: SingleCall>(
    layout: Layout,
    k: usize,
    call: &mut S,
    scaled: &mut [f32],
    codes: &mut [i32],
    factors: &mut [u8],
    side: &mut [u8],
    frames: &mut [u8],
    answers: &mut [u32],
    tally: &mut Tally,
) -> Result<(), LineRefusal<S::Refusal>>
    requires legal_layout { LegalLayout layout }
    requires turn { Turn layout k (length (S.spectra call.old)) (length (S.intensities call.old)) (length frames.old) }
    requires k_in_bounds { k * 4 + 4 ≤ length answers.old }
    requires on_the_way { OnTheWay tally.old }
    ensures turned { left_with (line_outcome_by S.refusal result) (line_index result) tally.new (S.spectra call.new) (S.intensities call.new)
        scaled.new codes.new factors.new side.new frames.new answers.new
        ≡ line_turn k (step_at S.step layout k (stage_lent (S.spectra call.old) (S.intensities call.old)
        scaled.old codes.old factors.old side.old frames.old)) answers.old tally.old }
    ensures same_loan { S.same call.old call.new }
{
    let answer = call.encode_part(layout, k, scaled, codes, factors, side, frames);
    let n = part_start(k, 4);
    store_answers(answer, &mut answers[n..]);
    *tally = tally.after(answer);
    match answer {
        Ok(_) => Ok(()),
        Err(e) => Err(LineRefusal::Frame(k, e)),
    }
}

// Every frame in its turn, until one is refused.
fn encode_turns<S: SingleCall>(
    layout: Layout,
    count: usize,
    call: &mut S,
    scaled: &mut [f32],
    codes: &mut [i32],
    factors: &mut [u8],
    side: &mut [u8],
    frames: &mut [u8],
    answers: &mut [u32],
    tally: &mut Tally,
) -> Result<(), LineRefusal<S::Refusal>>
    requires legal_layout { LegalLayout layout }
    requires batch { Batch count tally.old }
    requires line_has_room { LineHasRoom layout count (stage_room_of (length (S.spectra call.old)) (length (S.intensities call.old)) (length scaled.old)
        (room_of (length factors.old) (length side.old) (length codes.old) (length frames.old))) (length answers.old) }
    ensures after { left_with (line_outcome_by S.refusal result) (line_index result) tally.new (S.spectra call.new) (S.intensities call.new)
        scaled.new codes.new factors.new side.new frames.new answers.new
        ≡ line_after S.step layout (line_lent (S.spectra call.old) (S.intensities call.old)
        scaled.old codes.old factors.old side.old frames.old answers.old tally.old) count }
    ensures same_loan { S.same call.old call.new }
{
    for k in 0..count {
        encode_turn(
            layout, k, call, scaled, codes, factors, side, frames, answers, tally,
        )?;
    }
    Ok(())
}

// The turns behind the line's gate.
pub fn encode_gated<S: SingleCall>(
    layout: Layout,
    count: usize,
    call: &mut S,
    scaled: &mut [f32],
    codes: &mut [i32],
    factors: &mut [u8],
    side: &mut [u8],
    frames: &mut [u8],
    answers: &mut [u32],
    tally: &mut Tally,
) -> Result<(), LineRefusal<S::Refusal>>
    ensures over { left_with (line_outcome_by S.refusal result) (line_index result) tally.new (S.spectra call.new) (S.intensities call.new)
        scaled.new codes.new factors.new side.new frames.new answers.new
        ≡ line_over S.step layout count (line_lent (S.spectra call.old) (S.intensities call.old)
        scaled.old codes.old factors.old side.old frames.old answers.old tally.old) }
    ensures same_loan { S.same call.old call.new }
{
    let stored = Room {
        factors: factors.len(),
        side: side.len(),
        codes: codes.len(),
        frame: frames.len(),
    };
    let (spectra, intensities) = call.lengths();
    let room = StageRoom {
        spectra,
        intensities,
        scaled: scaled.len(),
        stored,
    };
    line_gate::<S::Refusal>(layout, count, room, answers.len(), *tally)?;
    encode_turns(
        layout, count, call, scaled, codes, factors, side, frames, answers, tally,
    )
}

// The stage, which is lent mixed spectra and leaves them.
#[derive(Drop)]
pub struct Mixed<'a> {
    pub spectra: &'a [f32],
    pub intensities: &'a [u8],
}

impl<'a> SingleCall for Mixed<'a> {
    type Refusal = StageRefusal;

    ghost step = { stage_step };

    ghost refusal = { λ r. stage_outcome (Err r) };

    ghost spectra = { λ x. x.spectra.now };

    ghost intensities = { λ x. x.intensities.now };

    ghost same = { λ x y. y ≡ x };

    fn lengths(&self) -> (usize, usize) {
        (self.spectra.len(), self.intensities.len())
    }

    fn encode_part(
        &mut self,
        layout: Layout,
        k: usize,
        scaled: &mut [f32],
        codes: &mut [i32],
        factors: &mut [u8],
        side: &mut [u8],
        frames: &mut [u8],
    ) -> Result<Delivery, StageRefusal> {
        let n = layout.channels * 1024;
        let m = layout.channels * 8;
        let f = layout.frame_size;
        let a = part_start(k, n);
        let i = part_start(k, m);
        let b = part_start(k, f);
        encode_frame(
            layout,
            &self.spectra[a..a + n],
            &self.intensities[i..i + m],
            scaled,
            codes,
            factors,
            side,
            &mut frames[b..b + f],
        )
    }

    ghost bounded = { stage_bounded };

    ghost refuses = { stage_refuses };

    ghost same_none = { λ x. refl };

    ghost same_more = { λ x y z p q. q ∙ p };

    ghost same_long = { λ x y p. (ap (λ z. length z.spectra.now) p, ap (λ z. length z.intensities.now) p) };
}

// A line, the tally brought up to date for delivered frames only. It takes any arguments: what cannot be done is refused, and the answer says why.
pub fn encode_frames(
    layout: Layout,
    count: usize,
    spectra: &[f32],
    intensities: &[u8],
    scaled: &mut [f32],
    codes: &mut [i32],
    factors: &mut [u8],
    side: &mut [u8],
    frames: &mut [u8],
    answers: &mut [u32],
    tally: &mut Tally,
) -> Result<(), LineRefusal<StageRefusal>>
    ensures { line_left result tally.new spectra.now intensities.now scaled.new codes.new
        factors.new side.new frames.new answers.new
        ≡ encode_line layout count (line_lent spectra.now intensities.now
        scaled.old codes.old factors.old side.old frames.old answers.old tally.old) }
{
    let mut call = Mixed {
        spectra,
        intensities,
    };
    encode_gated(
        layout, count, &mut call, scaled, codes, factors, side, frames, answers, tally,
    )
}
