// The walk over a WAV file's chunks, up to its data: request A13.
ghost use Rattle.std.specs.Prelude.{◌≡◌, ◌+◌, ◌≤◌, length};
ghost use Rattle.rules_files.specs.Wav.{is_wave, default_format, format_after, walked};
ghost use Rattle.rules_files.specs.WavFits.{FormatFits, WalkFits};

use numbers::low::get_low;
use rules_files::wav::{WavData, WavFormat};

// The names as numbers, low byte first.
const RIFF: u32 = 0x4646_4952;

const WAVE: u32 = 0x4556_4157;

const FMT: u32 = 0x2074_6D66;

const DATA: u32 = 0x6174_6164;

pub fn is_wave(wav: &[u8]) -> bool
    ensures { result ≡ is_wave wav.now }
{
    wav.len() >= 44 && get_low(wav, 0, 4) == RIFF && get_low(wav, 8, 4) == WAVE
}

fn default_format() -> WavFormat
    ensures { (result ≡ default_format) × FormatFits result }
{
    WavFormat {
        channels: 2,
        rate: 44100,
        depth: 16,
    }
}

// The format after a chunk with these bytes behind its head.
fn format_after(name: u32, chunk: &[u8], format: WavFormat) -> WavFormat
    requires { FormatFits format }
    ensures { (result ≡ format_after chunk.now name (length chunk.now) 0 format) × FormatFits result }
{
    if name != FMT || chunk.len() < 16 {
        return format;
    }
    WavFormat {
        channels: get_low(chunk, 2, 2) as usize,
        rate: get_low(chunk, 4, 4) as usize,
        depth: get_low(chunk, 14, 2) as usize,
    }
}

// Sizes are compared by subtraction: a sum could pass what a file's length bounds.
pub fn find_data(wav: &[u8]) -> Option<WavData>
    ensures { (result ≡ walked wav.now) × WalkFits wav.now result }
{
    let mut format = default_format();
    let mut pos: usize = 12;
    while pos + 8 <= wav.len() {
        let name = get_low(wav, pos, 4);
        let size = get_low(wav, pos + 4, 4) as usize;
        let body = pos + 8;
        if name == DATA {
            return Some(WavData { format, body, size });
        }
        if wav.len() - body < size {
            return None;
        }
        format = format_after(name, &wav[body..body + size], format);
        pos = body + size + size % 2;
    }
    None
}
