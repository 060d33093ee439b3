// One sample's value from its pattern.
ghost use Rattle.std.specs.Prelude.{◌≡◌, true, ◌+◌, ◌*◌, ◌≤◌, ◌<◌, length};
ghost use Rattle.std.specs.Float.{binary32};
ghost use Rattle.std.specs.Float.Ieee.{of_bits};
ghost use Rattle.std.specs.Float.Ieee.Scale.{finite};
ghost use Rattle.rules_files.specs.Wav.{low_at, is_depth, sample_width, signed_sample, sample_of};

use numbers::low::get_low;

// Is the float with this pattern neither a NaN nor an infinity? Judged on the pattern, since a NaN has none of its own.
pub fn is_finite_pattern(pattern: u32) -> bool
    ensures { result ≡ finite (of_bits binary32 pattern) }
{
    pattern % 0x8000_0000 < 0x7F80_0000
}

// The integer that a pattern stands for, where `half` of the patterns have no sign.
fn signed(pattern: u32, half: u32) -> i32
    requires { (pattern < half + half) × (half ≤ 0x80_0000) }
    ensures { result ≡ signed_sample half pattern }
{
    if pattern < half {
        return pattern as i32;
    }
    -((half + half - pattern) as i32)
}

// The sample at byte `at`. Both divisions are exact.
pub fn sample(wav: &[u8], at: usize, depth: usize) -> f32
    requires depth_value { (is_depth depth ≡ true) × (at + sample_width depth ≤ length wav.now) }
    requires depth_value_2 { finite (sample_of depth (low_at wav.now at (sample_width depth))) ≡ true }
    ensures { result ≡ sample_of depth (low_at wav.now at (sample_width depth)) }
{
    match depth {
        16 => signed(get_low(wav, at, 2), 0x8000) as f32 / 32768.0,
        24 => signed(get_low(wav, at, 3), 0x80_0000) as f32 / 8388608.0,
        _ => f32::from_bits(get_low(wav, at, 4)),
    }
}
