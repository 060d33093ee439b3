// Request A7, the list beside the bank: what its calls answer, and why they refuse.
ghost use Rattle.std.specs.Prelude.{◌≡◌};
ghost use Rattle.rules_files.specs.List.{entry_refusal_of, summary_refusal_of};

// One frame's numbers: level, boundary, pairs removed and bits written.
#[derive(Clone, Copy, Debug, PartialEq, Eq)]
pub struct Entry {
    pub level: u32,
    pub boundary: u32,
    pub pairs: u32,
    pub bits: u32,
}

// The highest level, the most pairs and the total of bits.
#[derive(Clone, Copy, Debug, PartialEq, Eq)]
pub struct Summary {
    pub level: u64,
    pub pairs: u64,
    pub bits: u64,
}

// What a look at the whole list finds wrong with it. A bad entry is one of so many frames.
#[derive(Clone, Copy, Debug, PartialEq, Eq)]
pub enum ListFault {
    BadMark,
    BadLength,
    BadEntry(usize),
}

// Why no list was written.
#[derive(Clone, Copy, Debug, PartialEq, Eq)]
pub enum ListWriteRefusal {
    ShortBuffer,
    BadEntry,
}

// Why no list was read.
#[derive(Clone, Copy, Debug, PartialEq, Eq)]
pub enum ListReadRefusal {
    ShortBuffer,
    BadMark,
    BadLength,
    BadEntry,
}

// Why no entry was looked up.
#[derive(Clone, Copy, Debug, PartialEq, Eq)]
pub enum EntryRefusal {
    BadMark,
    BadLength,
    BadEntry,
    NoFrame,
}

// Why a list has no summary.
#[derive(Clone, Copy, Debug, PartialEq, Eq)]
pub enum SummaryRefusal {
    BadMark,
    BadLength,
    BadEntry,
}

impl From<ListFault> for EntryRefusal {
    ghost from_gives = { λ fault refusal. refusal ≡ entry_refusal_of fault };

    fn from(fault: ListFault) -> EntryRefusal {
        match fault {
            ListFault::BadMark => EntryRefusal::BadMark,
            ListFault::BadLength => EntryRefusal::BadLength,
            ListFault::BadEntry(_) => EntryRefusal::BadEntry,
        }
    }
}

impl From<ListFault> for SummaryRefusal {
    ghost from_gives = { λ fault refusal. refusal ≡ summary_refusal_of fault };

    fn from(fault: ListFault) -> SummaryRefusal {
        match fault {
            ListFault::BadMark => SummaryRefusal::BadMark,
            ListFault::BadLength => SummaryRefusal::BadLength,
            ListFault::BadEntry(_) => SummaryRefusal::BadEntry,
        }
    }
}
