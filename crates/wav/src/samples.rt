// A data chunk's samples: counted, judged, stored and noted: request A13.
pub mod loudness;
pub mod values;

ghost use Rattle.std.specs.Prelude.{◌≡◌, true, ◌+◌, ◌*◌, ◌≤◌, length};
ghost use Rattle.buffers.specs.Walk.{build};
ghost use Rattle.rules_files.specs.Wav.{is_depth, sample_width, whole_samples, sample_at, all_finite, note_of};
ghost use Rattle.wav.specs.Inside.{SamplesInside};

use crate::samples::loudness::Loudness;
use crate::samples::values::{is_finite_pattern, sample};
use numbers::low::get_low;
use rules_files::wav::{LevelNote, WavData};

pub fn is_depth(depth: usize) -> bool
    ensures { result ≡ is_depth depth }
{
    matches!(depth, 16 | 24 | 32)
}

// How many samples lie whole in the file.
pub fn whole_samples(wav: &[u8], found: WavData) -> usize
    requires { (is_depth found.format.depth ≡ true) × (found.body ≤ length wav.now) }
    ensures { (result ≡ whole_samples wav.now found) × (found.body + result * sample_width found.format.depth ≤ length wav.now) }
{
    let present = found.size.min(wav.len() - found.body);
    present / (found.format.depth / 8)
}

// Are the first `count` samples finite? An integer is; a float is judged by its pattern.
pub fn all_finite(wav: &[u8], depth: usize, body: usize, count: usize) -> bool
    requires { SamplesInside wav.now depth body count }
    ensures { result ≡ all_finite wav.now depth body count }
{
    depth != 32 || (0..count).all(|k| is_finite_pattern(get_low(wav, body + k * 4, 4)))
}

// Stores as many samples as the buffer has, and notes their level.
pub fn take_samples(wav: &[u8], depth: usize, body: usize, samples: &mut [f32]) -> LevelNote
    requires samples_inside { SamplesInside wav.now depth body (length samples.old) }
    requires samples_value { all_finite wav.now depth body (length samples.old) ≡ true }
    ensures { (samples.new ≡ build (sample_at wav.now depth body) (length samples.old))
        × (result ≡ note_of (build (sample_at wav.now depth body) (length samples.old))) }
{
    let width = depth / 8;
    let mut loudness = Loudness::none();
    for (k, out) in samples.iter_mut().enumerate() {
        *out = sample(wav, body + k * width, depth);
        loudness = loudness.with(*out);
    }
    loudness.note()
}
