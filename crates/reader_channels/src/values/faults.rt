// A refusal that the strict reader finds in a field. A place counts the bits of the part of the frame after the sync.
ghost use Rattle.std.specs.Prelude.{◌≡◌};
ghost use Rattle.reader_channels.specs.declared.values.faults.Fault.TheVariants as fault;

// Refusals 11 to 13, each with the bit that it names.
#[derive(Clone, Copy, Debug, PartialEq, Eq)]
pub enum Fault {
    BadWidth(usize),
    BadFactor(usize),
    PastEnd(usize),
}

impl From<bits::PastEnd> for Fault {
    ghost from_gives = { λ past f. f ≡ fault.PastEnd past.at };

    fn from(past: bits::PastEnd) -> Fault {
        Fault::PastEnd(past.at)
    }
}
