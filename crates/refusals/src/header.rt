// The file header's refusals.
ghost use Rattle.std.specs.Prelude.{◌≡◌, Err};
ghost use Rattle.rules_files.specs.FileHeader.{header_outcome};
ghost use Rattle.rules_files.specs.HeaderReading.{header_read_outcome};
ghost use Rattle.refusals.specs.Refusals.{refusal_of};

use crate::{Refusal, refused};
use rules_files::header::{HeaderReadRefusal, HeaderRefusal};

impl From<HeaderRefusal> for Refusal {
    ghost from_gives = { λ e r. r ≡ refusal_of (header_outcome (Err e)) };

    fn from(e: HeaderRefusal) -> Refusal {
        match e {
            HeaderRefusal::BadLayout => refused(1, 0),
            HeaderRefusal::ShortBuffer => refused(2, 0),
            HeaderRefusal::BadHeader => refused(16, 0),
        }
    }
}

impl From<HeaderReadRefusal> for Refusal {
    ghost from_gives = { λ e r. r ≡ refusal_of (header_read_outcome (Err e)) };

    fn from(e: HeaderReadRefusal) -> Refusal {
        match e {
            HeaderReadRefusal::ShortBuffer => refused(2, 0),
            HeaderReadRefusal::WrongCheck => refused(26, 0),
            HeaderReadRefusal::WrongName => refused(27, 0),
            HeaderReadRefusal::BadField => refused(28, 0),
            HeaderReadRefusal::NotZero => refused(29, 0),
        }
    }
}
