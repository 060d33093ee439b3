// The level note as it grows: the peak, and the running average.
ghost use Rattle.std.specs.Prelude.{◌≡◌, ◌≤◌, ◌<◌};
ghost use Rattle.wav.specs.Loudness.{no_loudness, loudness_with, loudness_note};

use floats::Average;
use rules_files::wav::LevelNote;

#[derive(Clone, Copy)]
pub struct Loudness {
    pub peak: f32,
    pub average: Average,
}

impl Loudness {
    pub fn none() -> Loudness
        ensures { result ≡ no_loudness }
    {
        let average = Average::none();
        Loudness { peak: 0.0, average }
    }

    pub fn with(self, x: f32) -> Loudness
        requires { self.average.count < 0x100_0000 }
        ensures { result ≡ loudness_with self x }
    {
        let m = floats::magnitude(x);
        let before = self.average;
        let average = before.with_one(x);
        if self.peak < m {
            return Loudness { peak: m, average };
        }
        Loudness {
            peak: self.peak,
            average,
        }
    }

    pub fn note(self) -> LevelNote
        requires { self.average.count ≤ 0x100_0000 }
        ensures { result ≡ loudness_note self }
    {
        let average = self.average;
        LevelNote {
            peak: self.peak,
            mean: average.mean(),
        }
    }
}
