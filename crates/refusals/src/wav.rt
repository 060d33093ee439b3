// The WAV reader's refusals.
ghost use Rattle.std.specs.Prelude.{◌≡◌, Err};
ghost use Rattle.rules_files.specs.Wav.{wav_outcome};
ghost use Rattle.refusals.specs.Refusals.{refusal_of};

use crate::{Refusal, refused};
use rules_files::wav::WavRefusal;

impl From<WavRefusal> for Refusal {
    ghost from_gives = { λ e r. r ≡ refusal_of (wav_outcome (Err e)) };

    fn from(e: WavRefusal) -> Refusal {
        match e {
            WavRefusal::NotWave => refused(22, 0),
            WavRefusal::NoData => refused(23, 0),
            WavRefusal::BadDepth => refused(24, 0),
            WavRefusal::TooMany => refused(30, 0),
            WavRefusal::ShortBuffer => refused(2, 0),
            WavRefusal::NotFinite => refused(25, 0),
        }
    }
}
