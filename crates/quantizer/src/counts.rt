// Document 01, **Estimate**: the bits that the estimate counts for one value. Comparisons count them, and no code is
// made: so a band's eight values are compiled to run side by side.
ghost use Rattle.std.specs.Prelude.{◌≡◌, cond, ◌≤◌, ◌<◌, get_or};
ghost use Rattle.std.specs.Float.{nan};
ghost use Rattle.std.specs.Float.Ieee.{le};
ghost use Rattle.rules.specs.Tables.{dead_zone_table};
ghost use Rattle.rules.specs.Code.{magnitude_bits};
ghost use Rattle.rules.specs.Estimate.{value_bits};
ghost use Rattle.rules.specs.declared.Mode.TheVariants.{Rust};
ghost use Rattle.quantizer.specs.Marks.{marks_of, marks_at};

use floats::magnitude;
use rules::Mode;

// Below resolution 8: the step, and the whole numbers at which the length of a code changes. It is `low`, from 1 on `high` more, from
// near to far one less, and from past on `drop` less.
#[derive(Clone, Copy)]
pub struct Marks {
    pub step: f32,
    pub near: f32,
    pub far: f32,
    pub past: f32,
    pub low: u32,
    pub high: u32,
    pub drop: u32,
}

fn marked(step: f32, near: f32, far: f32, past: f32, high: u32, drop: u32) -> Marks
    ensures { result ≡ marks_of step near far past 0 high drop }
{
    Marks {
        step,
        near,
        far,
        past,
        low: 0,
        high,
        drop,
    }
}

// In the Rust's mode. At resolution 7 the table's row goes on to its end.
fn rust_marks(r: u8) -> Marks
    requires { r < 8 }
    ensures { result ≡ marks_at Rust r }
{
    match r {
        0 => marked(0.5, 1.0, 1.0, 1.0, 0, 0),
        1 => marked(1.5, 2.0, 3.0, 4.0, 2, 2),
        2 => marked(2.5, 2.0, 5.0, 6.0, 3, 3),
        3 => marked(3.5, 4.0, 5.0, 8.0, 3, 3),
        4 => marked(4.5, 2.0, 9.0, 10.0, 4, 4),
        5 => marked(5.5, 4.0, 9.0, 12.0, 4, 4),
        6 => marked(6.5, 6.0, 9.0, 14.0, 4, 4),
        _ => marked(7.5, 8.0, 9.0, 16.0, 4, 0),
    }
}

// In held mode a code past its range has the length of the range's end.
pub fn marks_of(mode: Mode, r: u8) -> Marks
    requires { r < 8 }
    ensures { result ≡ marks_at mode r }
{
    let m = rust_marks(r);
    match mode {
        Mode::Rust => m,
        Mode::Held => Marks {
            low: m.high,
            high: 0,
            drop: 0,
            ..m
        },
    }
}

// n where the value reaches the mark, else 0.
fn reached(mark: f32, value: f32, n: u32) -> u32
    ensures { (result ≡ cond (le mark value) n 0) × (result ≤ n) }
{
    if mark <= value { n } else { 0 }
}

// Below resolution 8, with its marks.
pub fn small_bits(mode: Mode, scaled: f32, r: u8, m: Marks) -> u32
    requires { (r < 8) × (m ≡ marks_at mode r) }
    ensures { (result ≡ value_bits mode r scaled) × (result ≤ 12) }
{
    let y = scaled * m.step + (m.step + 1.0);
    let most = m.low + reached(1.0, y, m.high) + reached(m.far, y, 1);
    most - (reached(m.near, y, 1) + reached(m.past, y, m.drop))
}

// From resolution 8 up, with its magnitude's bits and its dead zone.
pub fn wide_bits(mode: Mode, scaled: f32, r: u8, bits: u32, dead: f32) -> u32
    requires { (8 ≤ r) × (r ≤ 15) × (bits ≡ magnitude_bits r) × (dead ≡ get_or dead_zone_table r nan) }
    ensures { (result ≡ value_bits mode r scaled) × (result ≤ 12) }
{
    bits + reached(dead, magnitude(scaled), 1)
}
