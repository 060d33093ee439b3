// The refusals of the list beside the bank.
ghost use Rattle.std.specs.Prelude.{◌≡◌, Err};
ghost use Rattle.rules_files.specs.List.{list_written_outcome, list_read_outcome, entry_outcome, summary_outcome};
ghost use Rattle.refusals.specs.Refusals.{refusal_of};

use crate::{Refusal, refused};
use rules_files::list::{EntryRefusal, ListReadRefusal, ListWriteRefusal, SummaryRefusal};

impl From<ListWriteRefusal> for Refusal {
    ghost from_gives = { λ e r. r ≡ refusal_of (list_written_outcome (Err e)) };

    fn from(e: ListWriteRefusal) -> Refusal {
        match e {
            ListWriteRefusal::ShortBuffer => refused(2, 0),
            ListWriteRefusal::BadEntry => refused(21, 0),
        }
    }
}

impl From<ListReadRefusal> for Refusal {
    ghost from_gives = { λ e r. r ≡ refusal_of (list_read_outcome (Err e)) };

    fn from(e: ListReadRefusal) -> Refusal {
        match e {
            ListReadRefusal::ShortBuffer => refused(2, 0),
            ListReadRefusal::BadMark => refused(19, 0),
            ListReadRefusal::BadLength => refused(20, 0),
            ListReadRefusal::BadEntry => refused(21, 0),
        }
    }
}

impl From<EntryRefusal> for Refusal {
    ghost from_gives = { λ e r. r ≡ refusal_of (entry_outcome (Err e)) };

    fn from(e: EntryRefusal) -> Refusal {
        match e {
            EntryRefusal::BadMark => refused(19, 0),
            EntryRefusal::BadLength => refused(20, 0),
            EntryRefusal::BadEntry => refused(21, 0),
            EntryRefusal::NoFrame => refused(31, 0),
        }
    }
}

impl From<SummaryRefusal> for Refusal {
    ghost from_gives = { λ e r. r ≡ refusal_of (summary_outcome (Err e)) };

    fn from(e: SummaryRefusal) -> Refusal {
        match e {
            SummaryRefusal::BadMark => refused(19, 0),
            SummaryRefusal::BadLength => refused(20, 0),
            SummaryRefusal::BadEntry => refused(21, 0),
        }
    }
}
