// Request A5, a whole line in one call, from mixed or from unmixed spectra: types, definitions, and what a frame's answer does to the tally and to its
// part of the answers.
#![tactic(auto)]

ghost use Rattle.std.specs.Prelude.{◌≡◌, ◌^◌, ◌≤◌, ◌<◌, length, IfOk, OnErr};
ghost use Rattle.std.specs.Result.{ForOk};
ghost use Rattle.rules.specs.Lent.{overwrite};
ghost use Rattle.rules_line.specs.Line.{answers_of, gained, tally_after};
ghost use Rattle.rules_line.specs.Asked.{OnTheWay, AnswersFit, delivered_outcome};

use rules::Delivery;

// What a caller's lines have delivered so far.
#[derive(Clone, Copy, Debug, Default, PartialEq, Eq)]
pub struct Tally {
    pub frames: u64,
    pub bits: u64,
    pub pairs: u64,
}

// Why a line is refused: by its gate, or at a frame that the single call refuses, with the frame's index and that call's refusal.
#[derive(Clone, Copy, Debug, PartialEq, Eq)]
pub enum LineRefusal<R> {
    BadLayout,
    BadBatch,
    ShortBuffer,
    Frame(usize, R),
}

impl Tally {
    // One frame more.
    pub fn with(self, bits: u64, pairs: u64) -> Tally
        requires on_the_way { OnTheWay self }
        requires bits_bound { (bits < 2 ^ 32) × (pairs < 2 ^ 32) }
        ensures { result ≡ gained self bits pairs }
    {
        Tally {
            frames: self.frames + 1,
            bits: self.bits + bits,
            pairs: self.pairs + pairs,
        }
    }

    // After a frame's answer, of either single call: a refused frame is not counted.
    pub fn after<R: Copy>(self, answer: Result<Delivery, R>) -> Tally
        requires on_the_way { OnTheWay self }
        requires answers_fit { ForOk answer (λ d. AnswersFit (delivered_outcome d)) }
        ensures counted { IfOk answer (λ d. result ≡ tally_after self (delivered_outcome d)) }
        ensures kept { OnErr answer (result ≡ self) }
    {
        match answer {
            Ok(d) => self.with(d.bits as u64, d.pairs as u64),
            Err(_) => self,
        }
    }
}

// A delivered frame's four answers into its part; a refused one, of either single call, leaves it as it was.
pub fn store_answers<R: Copy>(answer: Result<Delivery, R>, answers: &mut [u32])
    requires answers_fit { ForOk answer (λ d. AnswersFit (delivered_outcome d)) }
    requires in_bounds { 4 ≤ length answers.old }
    ensures stored { IfOk answer (λ d. answers.new ≡ overwrite (answers_of (delivered_outcome d)) answers.old) }
    ensures kept { OnErr answer (answers.new ≡ answers.old) }
{
    let Ok(d) = answer else {
        return;
    };
    answers[0] = d.level as u32;
    answers[1] = d.boundary as u32;
    answers[2] = d.pairs as u32;
    answers[3] = d.bits as u32;
}
