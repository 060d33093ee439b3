// The strict reader's level and boundary, and what is known of a record while its fields are read.
ghost use Rattle.std.specs.Prelude.{◌≤◌, length};
ghost use Rattle.rules.specs.declared.Layout.{Layout};
ghost use Rattle.reader_channels.specs.Started.{Started};

use crate::values::faults::Fault;
use bits::Place;

// Level, boundary and the place after the fields that were read.
#[derive(Clone, Copy, Debug, PartialEq, Eq)]
pub struct Head {
    pub level: usize,
    pub boundary: usize,
    pub next: Place,
}

// Level and boundary, the part's first two fields; whatever they hold is taken.
#[tactic(auto, using(crate::proofs::Heads::level_past, crate::proofs::Heads::boundary_past, crate::proofs::Heads::started))]
pub fn read_head(part: &[u8]) -> Result<Head, Fault>
    requires { length part.now ≤ 65535 }
    ensures { (l : Layout) → Started l part.now result }
{
    let start = Place { at: 0 };
    let (level, second) = start.get(part, 9)?;
    let (boundary, next) = second.get(part, 7)?;
    Ok(Head {
        level: level as usize,
        boundary: boundary as usize,
        next,
    })
}
