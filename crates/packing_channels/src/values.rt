// Document 01, **Frame**: one value at a time: sync with level and boundary, a factor by its delta.
ghost use Rattle.std.specs.Prelude.{◌≡◌, true, ◌++◌, ◌+◌, ◌-◌, ◌*◌, ◌^◌, ◌<◌, ◌≤◌};
ghost use Rattle.bits.specs.Bits.{bits};
ghost use Rattle.emission.specs.Run.{Emits};
ghost use Rattle.rules.specs.Width.{near};
ghost use Rattle.rules.specs.Fields.{delta_symbol, delta_bits};

use emission::Run;
use widths::deltas::{delta, is_near, reach};

// FFFF, the level in 9 bits, the boundary in 7.
pub fn write_head(run: Run, payload: &mut [u8], level: usize, boundary: usize) -> Run
    requires { (level ≤ 511) × (boundary ≤ 127) × (run.n ≤ 7) × (run.at < 2 ^ 49) }
    ensures { Emits run payload.old (bits 16 0xFFFF ++ (bits 9 level ++ bits 7 boundary)) result payload.new
        × (8 * result.at + result.n ≡ 8 * run.at + run.n + 32) }
{
    let a = run.write(payload, 0xFFFF, 16);
    let b = a.write(payload, level as u32, 9);
    b.write(payload, boundary as u32, 7)
}

// All ones in d bits, and the factor in 6.
fn write_escape(run: Run, payload: &mut [u8], d: usize, factor: u8) -> Run
    requires { (1 ≤ d) × (d ≤ 5) × (run.n ≤ 7) × (run.at < 2 ^ 49) }
    ensures { Emits run payload.old (bits d (2 ^ d - 1) ++ bits 6 factor) result payload.new
        × (8 * result.at + result.n ≡ 8 * run.at + run.n + d + 6) }
{
    let width = d as u32;
    let next = run.write(payload, bits::ones(width), width);
    next.write(payload, factor as u32, 6)
}

// m + delta, the delta signed, where it is near.
fn delta_symbol(d: usize, previous: u8, factor: u8) -> u32
    requires { (1 ≤ d) × (d ≤ 5) × (near d previous factor ≡ true) }
    ensures { result ≡ delta_symbol d previous factor }
{
    (reach(d) as i32 + delta(previous, factor)) as u32
}

// A later factor at width d: m + delta in d bits, or an escape.
pub fn write_delta(run: Run, payload: &mut [u8], d: usize, previous: u8, factor: u8) -> Run
    requires { (1 ≤ d) × (d ≤ 5) × (run.n ≤ 7) × (run.at < 2 ^ 49) }
    ensures { Emits run payload.old (delta_bits d previous factor) result payload.new × (8 * result.at + result.n ≤ 8 * run.at + run.n + 11) }
{
    if is_near(d, previous, factor) {
        let symbol = delta_symbol(d, previous, factor);
        return run.write(payload, symbol, d as u32);
    }
    write_escape(run, payload, d, factor)
}
