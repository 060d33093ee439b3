// Request A5: the refusals of a line. A frame's are the single call's.
ghost use Rattle.std.specs.Prelude.{◌≡◌, Err};
ghost use Rattle.rules.specs.Refusals.{Outcome};
ghost use Rattle.rules_line.specs.Line.{line_outcome_by};
ghost use Rattle.refusals.specs.Refusals.{refusal_of};

use crate::{Refusal, refused};
use rules_line::LineRefusal;

// Whatever outcome the single call's refusals are told by, a line's are told by the line's over it.
impl<R: Into<Refusal>> From<LineRefusal<R>> for Refusal {
    ghost from_gives = { λ refusal result. (of : R → Outcome) → ((r : R) (x : _) → R.converts r x → x ≡ refusal_of (of r))
        → result ≡ refusal_of (line_outcome_by of (Err refusal)) };

    fn from(refusal: LineRefusal<R>) -> Refusal {
        match refusal {
            LineRefusal::BadLayout => refused(1, 0),
            LineRefusal::BadBatch => refused(18, 0),
            LineRefusal::ShortBuffer => refused(2, 0),
            LineRefusal::Frame(_, r) => r.into(),
        }
    }
}
