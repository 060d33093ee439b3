// Request A2's refusals: 17, and those of the stage.
ghost use Rattle.std.specs.Prelude.{◌≡◌, Err};
ghost use Rattle.rules_stereo.specs.Stereo.{stereo_outcome};
ghost use Rattle.refusals.specs.Refusals.{refusal_of};

use crate::{Refusal, refused};
use rules_stereo::StereoRefusal;

impl From<StereoRefusal> for Refusal {
    ghost from_gives = { λ refusal result. result ≡ refusal_of (stereo_outcome (Err refusal)) };

    fn from(refusal: StereoRefusal) -> Refusal {
        match refusal {
            StereoRefusal::TooLoud => refused(17, 0),
            StereoRefusal::Stage(r) => r.into(),
        }
    }
}
