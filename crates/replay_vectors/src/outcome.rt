// What a case came to, and the words that say it.
use crate::cursor::Cursor;
use refusals::Refusal;
use rules::{Delivery, RecordDelivery};
use std::fmt;

// What a call delivers.
#[derive(Clone, Copy)]
pub enum Delivered {
    Frame(Delivery),
    Record(RecordDelivery),
    Check(u16),
}

pub type Answer = Result<Delivered, Refusal>;

// What an answer place holds that no call writes.
const UNWRITTEN: usize = 0x5A5A_5A5A;

// An answer as a file has it: the refusal's number, 0 for none, and the four answer places.
fn numbers_of(answer: Answer) -> [usize; 5] {
    match answer {
        Ok(Delivered::Frame(d)) => [0, d.level, d.boundary, d.pairs, d.bits],
        Ok(Delivered::Record(d)) => [0, d.level, d.boundary, d.bits, UNWRITTEN],
        Ok(Delivered::Check(check)) => { [0, usize::from(check), UNWRITTEN, UNWRITTEN, UNWRITTEN] }
        Err(r) => [r.number, r.beside, UNWRITTEN, UNWRITTEN, UNWRITTEN],
    }
}

impl fmt::Display for Delivered {
    fn fmt<W: fmt::Write>(&self, f: &mut fmt::Formatter<W>) -> fmt::Result {
        match *self {
            Delivered::Frame(d) => write!(
                f,
                "delivered {} {} {} {}",
                d.level, d.boundary, d.pairs, d.bits
            ),
            Delivered::Record(d) => write!(f, "delivered {} {} {}", d.level, d.boundary, d.bits),
            Delivered::Check(check) => write!(f, "check {check}"),
        }
    }
}

#[derive(Clone, Copy, Debug, PartialEq, Eq)]
pub enum Verdict {
    Same,
    Different,
    Skipped,
    Damaged,
}

impl fmt::Display for Verdict {
    fn fmt<W: fmt::Write>(&self, f: &mut fmt::Formatter<W>) -> fmt::Result {
        f.write_str(match self {
            Verdict::Same => "same",
            Verdict::Different => "DIFFERENT",
            Verdict::Skipped => "skipped: only the C interface can say this layout",
            Verdict::Damaged => "damaged",
        })
    }
}

// The verdict, and the answer that is shown with it.
#[derive(Clone, Copy)]
pub struct Outcome {
    answer: Option<Answer>,
    pub verdict: Verdict,
}

impl Outcome {
    // Of a case that is not run.
    pub fn not_run(verdict: Verdict) -> Outcome {
        Outcome {
            answer: None,
            verdict,
        }
    }

    // Of one whose body is read. Where it was not whole, what a call delivers for it is not shown.
    pub fn after(body: Cursor<'_>, answer: Answer, is_same: bool) -> Outcome {
        let is_whole = body.is_at_end();
        let is_shown = is_whole || answer.is_err();
        Outcome {
            answer: is_shown.then_some(answer),
            verdict: match (is_whole, is_same) {
                (false, _) => Verdict::Damaged,
                (true, false) => Verdict::Different,
                (true, true) => Verdict::Same,
            },
        }
    }

    // Of one whose body ends in the answer that is to come, and the sums of what the call may write.
    pub fn judged<const N: usize>(mut body: Cursor<'_>, answer: Answer, sums: [u32; N]) -> Outcome {
        let numbers: [u32; 5] = body.words();
        let is_said = numbers.map(|n| n as usize) == numbers_of(answer);
        let is_left = body.words() == sums;
        Outcome::after(body, answer, is_said && is_left)
    }
}

impl fmt::Display for Outcome {
    fn fmt<W: fmt::Write>(&self, f: &mut fmt::Formatter<W>) -> fmt::Result {
        match self.answer {
            Some(Ok(delivered)) => write!(f, "{delivered} ")?,
            Some(Err(r)) => write!(f, "refusal {} beside it {} ", r.number, r.beside)?,
            None => {}
        }
        write!(f, "{}", self.verdict)
    }
}

// How many cases came to what.
#[derive(Clone, Copy, Default)]
pub struct Tally {
    same: usize,
    different: usize,
    skipped: usize,
    damaged: usize,
}

impl Tally {
    pub fn add(&mut self, verdict: Verdict) {
        match verdict {
            Verdict::Same => self.same = self.same.saturating_add(1),
            Verdict::Different => self.different = self.different.saturating_add(1),
            Verdict::Skipped => self.skipped = self.skipped.saturating_add(1),
            Verdict::Damaged => self.damaged = self.damaged.saturating_add(1),
        }
    }
}

impl fmt::Display for Tally {
    fn fmt<W: fmt::Write>(&self, f: &mut fmt::Formatter<W>) -> fmt::Result {
        let Tally {
            same,
            different,
            skipped,
            damaged,
        } = *self;
        write!(
            f,
            "same {same} different {different} skipped {skipped} damaged {damaged}"
        )
    }
}
