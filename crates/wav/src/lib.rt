// The WAV reader's public call: request A13.
#![tactic(auto)]

// The walk over a file's chunks, up to its data.
pub mod chunks;
// A data chunk's samples: counted, judged, stored and noted.
pub mod samples;

ghost use Rattle.std.specs.Prelude.{◌≡◌};
ghost use Rattle.rules_files.specs.Wav.{wav_left, data_read, read_wav};
ghost use Rattle.rules_files.specs.WavFits.{DataFits, TakeFits};

use crate::chunks::{find_data, is_wave};
use crate::samples::{all_finite, is_depth, take_samples, whole_samples};
use rules_files::wav::{Take, WavData, WavRefusal};

// The take from a data chunk that was found. Every pattern is judged before the first sample is stored.
fn read_data(wav: &[u8], found: WavData, samples: &mut [f32]) -> Result<Take, WavRefusal>
    requires { DataFits wav.now found }
    ensures { (wav_left result samples.new ≡ data_read wav.now found samples.old) × TakeFits result }
{
    let format = found.format;
    let depth = format.depth;
    let body = found.body;
    if found.size == 0 {
        return Err(WavRefusal::NoData);
    }
    if !is_depth(depth) {
        return Err(WavRefusal::BadDepth);
    }
    let count = whole_samples(wav, found);
    if 0x100_0000 < count {
        return Err(WavRefusal::TooMany);
    }
    if samples.len() < count {
        return Err(WavRefusal::ShortBuffer);
    }
    if !all_finite(wav, depth, body, count) {
        return Err(WavRefusal::NotFinite);
    }
    let note = take_samples(wav, depth, body, &mut samples[..count]);
    Ok(Take {
        channels: format.channels,
        rate: format.rate,
        depth,
        count,
        note,
    })
}

// A take from its WAV file: the samples into the lent buffer, and what they are.
pub fn read_wav(wav: &[u8], samples: &mut [f32]) -> Result<Take, WavRefusal>
    ensures { (wav_left result samples.new ≡ read_wav wav.now samples.old) × TakeFits result }
{
    if !is_wave(wav) {
        return Err(WavRefusal::NotWave);
    }
    let found = find_data(wav).ok_or(WavRefusal::NoData)?;
    read_data(wav, found, samples)
}
