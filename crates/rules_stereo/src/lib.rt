// Request A2 as types and definitions: the stereo stage, from unmixed spectra on.
#![tactic(auto)]

ghost use Rattle.std.specs.Prelude.{◌≡◌};
ghost use Rattle.rules_stereo.specs.declared.StereoRefusal.TheVariants.{Stage};

use rules::StageRefusal;

// The energies of one subframe of a pair: of its left, of its right, and twice that of their sum.
#[derive(Clone, Copy)]
pub struct Energies {
    pub left: f32,
    pub right: f32,
    pub total: f32,
}

// How a subframe of a pair is mixed: the intensity that goes to the right, and the ratio that the left is taken times.
#[derive(Clone, Copy)]
pub struct Mixing {
    pub value: u8,
    pub ratio: f32,
}

// Why the stereo stage refuses: a magnitude above 65,536, or as the stage.
#[derive(Clone, Copy, Debug, PartialEq, Eq)]
pub enum StereoRefusal {
    TooLoud,
    Stage(StageRefusal),
}

impl From<StageRefusal> for StereoRefusal {
    ghost from_gives = { λ refusal result. result ≡ Stage refusal };

    fn from(refusal: StageRefusal) -> StereoRefusal {
        StereoRefusal::Stage(refusal)
    }
}
