// The codes of one band: what they are made with by its resolution, one code, and the eight of its subframes.
ghost use Rattle.std.specs.Prelude.{◌≡◌, ◌*◌, ◌+◌, ◌≤◌, ◌<◌, length, get_or};
ghost use Rattle.std.specs.Float.{nan};
ghost use Rattle.floats.specs.Single.{Short};
ghost use Rattle.rules.specs.Code.{recorded_code};
ghost use Rattle.within.specs.Within.{AllWithin};
ghost use Rattle.codes.specs.Bands.{band_laid};
ghost use Rattle.codes.specs.Columns.{top_of, column_at, cut_by, code_by, Based};

use floats::smaller;
use quantizer::tables::step_of;
use rules::Mode;

// The step, the most that is truncated, and the bits that stand for code 0.
#[derive(Clone, Copy)]
pub struct Column {
    pub step: f32,
    pub top: f32,
    pub zero: u32,
}

// Here alone a code depends on the mode. Twice the step is what gives the code at the upper end of a range.
fn top_of(mode: Mode, resolution: u8, step: f32) -> f32
    ensures { result ≡ top_of mode resolution step }
{
    match mode {
        Mode::Rust => if resolution == 0 { 1.0 } else { 4096.0 },
        Mode::Held => step + step,
    }
}

fn column_of(mode: Mode, resolution: u8) -> Column
    requires { resolution ≤ 15 }
    ensures { result ≡ column_at mode resolution }
{
    let step = step_of(resolution);
    let whole: f32 = step + 0.5;
    let zero: f32 = whole + 8388608.0;
    Column {
        step,
        top: top_of(mode, resolution, step),
        zero: f32::to_bits(zero),
    }
}

// Truncated by a large addend: 2 ^ 23 more has no room for a fraction, so the sum is a whole number next to it, and one too many where it came out above.
fn code_by(column: Column, scaled: f32) -> i32
    requires { Based column × Short (cut_by column scaled) }
    ensures { result ≡ code_by column scaled }
{
    let up = column.step + 1.0;
    let y: f32 = smaller(column.top, scaled * column.step + up);
    let z: f32 = y + 8388608.0;
    let w: f32 = z - 8388608.0;
    let n = f32::to_bits(z) as i32 - column.zero as i32;
    if y < w { n - 1 } else { n }
}

// A band's eight codes, of a channel's 1,024: by subframe and band, while the scaled values stand by band and subframe.
pub(crate) fn band_codes(mode: Mode, resolution: u8, scaled: &[f32], band: usize, codes: &mut [i32])
    requires resolution_bound { (resolution ≤ 15) × (band < 128) × AllWithin scaled.now }
    requires scaled_len { (length scaled.now ≡ 1024) × (length codes.old ≡ 1024) }
    ensures { codes.new ≡ band_laid (λ s. recorded_code mode resolution (get_or scaled.now (band * 8 + s) nan)) band 8
        codes.old }
{
    let column = column_of(mode, resolution);
    for s in 0..8 {
        codes[s * 128 + band] = code_by(column, scaled[band * 8 + s]);
    }
}
