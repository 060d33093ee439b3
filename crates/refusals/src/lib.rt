// The refusals of every call: the number, and the number beside it. Here those of the three calls of document 01.
#![tactic(auto)]

// The stereo call's.
pub mod stereo;
// A line's.
pub mod line;
// The file header's.
pub mod header;
// The list's.
pub mod list;
// The WAV reader's.
pub mod wav;

ghost use Rattle.std.specs.Prelude.{◌≡◌, Err};
ghost use Rattle.rules.specs.Refusals.{refused, stage_outcome, writer_outcome, reader_outcome};
ghost use Rattle.refusals.specs.Refusals.{refusal_of};

use rules::{ReadRefusal, StageRefusal, WriteRefusal};

// A refusal by its number, and the number beside it.
#[derive(Clone, Copy, Debug, PartialEq, Eq)]
pub struct Refusal {
    pub number: usize,
    pub beside: usize,
}

pub fn refused(number: usize, beside: usize) -> Refusal
    ensures { result ≡ refusal_of (refused number beside) }
{
    Refusal { number, beside }
}

impl From<StageRefusal> for Refusal {
    ghost from_gives = { λ refusal result. result ≡ refusal_of (stage_outcome (Err refusal)) };

    fn from(refusal: StageRefusal) -> Refusal {
        match refusal {
            StageRefusal::BadLayout => refused(1, 0),
            StageRefusal::ShortBuffer => refused(2, 0),
            StageRefusal::BadIntensity(i) => refused(3, i),
            StageRefusal::BadSpectrum(i) => refused(4, i),
            StageRefusal::NoLevel(n) => refused(5, n),
            StageRefusal::TooLong(n) => refused(7, n),
        }
    }
}

impl From<ReadRefusal> for Refusal {
    ghost from_gives = { λ refusal result. result ≡ refusal_of (reader_outcome (Err refusal)) };

    fn from(refusal: ReadRefusal) -> Refusal {
        match refusal {
            ReadRefusal::BadLayout => refused(1, 0),
            ReadRefusal::ShortBuffer => refused(2, 0),
            ReadRefusal::WrongCheck => refused(8, 0),
            ReadRefusal::WrongSync => refused(9, 0),
            ReadRefusal::BadWidth(n) => refused(11, n),
            ReadRefusal::BadFactor(n) => refused(12, n),
            ReadRefusal::PastEnd(n) => refused(13, n),
            ReadRefusal::FillNotZero(n) => refused(14, n),
        }
    }
}

impl From<WriteRefusal> for Refusal {
    ghost from_gives = { λ refusal result. result ≡ refusal_of (writer_outcome (Err refusal)) };

    fn from(refusal: WriteRefusal) -> Refusal {
        match refusal {
            WriteRefusal::BadLayout => refused(1, 0),
            WriteRefusal::ShortBuffer => refused(2, 0),
            WriteRefusal::NotLegal => refused(15, 0),
            WriteRefusal::TooLong(n) => refused(7, n),
        }
    }
}
