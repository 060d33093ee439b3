// Request A2's answer as numbers: 17, or as the stage's.
ghost use Rattle.rules_stereo.specs.Stereo.{stereo_outcome};
ghost use Rattle.hca_answers.specs.Outcomes.{Small, AnswerStored};

use crate::{store_stage, tell};
use rules::Delivery;
use rules_stereo::StereoRefusal;

pub fn store_stereo(a: Result<Delivery, StereoRefusal>, answer: &mut [u32]) -> u32
    requires { Small (stereo_outcome a) }
    ensures { AnswerStored (stereo_outcome a) result answer.old answer.new }
{
    match a {
        Ok(d) => store_stage(Ok(d), answer),
        Err(e) => tell(e.into(), answer),
    }
}
