// One value at a time: a number, and a factor, read from the part of the frame after the sync.
pub mod faults;

ghost use Rattle.std.specs.Prelude.{◌≡◌, not, ◌*◌, ◌^◌, ◌≤◌, ◌<◌, length};
ghost use Rattle.bits.specs.Place.{left_at};
ghost use Rattle.rules.specs.Format.{require, number};
ghost use Rattle.rules.specs.Width.{near};
ghost use Rattle.rules.specs.Reading.{delta_factor, read_delta, read_factor};
ghost use Rattle.reader_channels.specs.Steps.{Inside};
ghost use Rattle.reader_channels.specs.Values.{ValueAgrees, before, judged};

use crate::values::faults::Fault;
use bits::Place;

// A field of up to 16 bits.
#[tactic(auto, using(crate::proofs::Answered::number_read, crate::proofs::Answered::number_cut))]
pub fn read_number(part: &[u8], place: Place, bits: u32) -> Result<(u32, Place), Fault>
    requires inside { Inside part.now place.at }
    requires bits_bound { bits ≤ 16 }
    ensures { ValueAgrees part.now (number bits (left_at part.now place.at)) (2 ^ bits) result }
{
    Ok(place.get(part, bits)?)
}

// The factor after an escape whose first bit is `at`; one that a delta could name is refused there.
fn read_escaped(
    part: &[u8],
    place: Place,
    d: u32,
    previous: u8,
    at: usize,
) -> Result<(u32, Place), Fault>
    requires inside { Inside part.now place.at }
    requires le_d { (1 ≤ d) × (d ≤ 5) × (at ≤ 8 * length part.now) }
    ensures { ValueAgrees part.now
        (require 12 (length (left_at part.now at)) (λ f. not (near d previous f)) (number 6) (left_at part.now place.at))
        64 result }
{
    let (factor, next) = read_number(part, place, 6)?;
    if widths::deltas::is_near(d as usize, previous, factor as u8) {
        return Err(Fault::BadFactor(at));
    }
    Ok((factor, next))
}

// previous + v - m. It can be below zero.
fn delta_factor(d: u32, previous: u8, v: u32) -> i32
    requires { (1 ≤ d) × (d ≤ 5) × (v < 64) }
    ensures { result ≡ delta_factor d previous v }
{
    previous as i32 + (v as i32 - widths::deltas::reach(d as usize) as i32)
}

// A factor that a delta names, or that it lies outside 0..63.
fn judge(factor: i32, next: Place, at: usize) -> Result<(u32, Place), Fault>
    ensures { result ≡ judged factor next at }
{
    if (0..=63).contains(&factor) {
        Ok((factor as u32, next))
    } else {
        Err(Fault::BadFactor(at))
    }
}

// A later factor at width d.
fn read_delta(part: &[u8], place: Place, d: u32, previous: u8) -> Result<(u32, Place), Fault>
    requires inside { Inside part.now place.at }
    requires le_d { (1 ≤ d) × (d ≤ 5) }
    ensures { ValueAgrees part.now (read_delta d previous (left_at part.now place.at)) 64 result }
{
    let (v, next) = read_number(part, place, d)?;
    if v == bits::ones(d) {
        return read_escaped(part, next, d, previous, place.at);
    }
    judge(delta_factor(d, previous, v), next, place.at)
}

// A factor at a width above 0, after the factor `previous` where it is not the first.
pub fn read_factor(
    part: &[u8],
    place: Place,
    width: u32,
    previous: Option<u8>,
) -> Result<(u32, Place), Fault>
    requires inside { Inside part.now place.at }
    requires le_width { (1 ≤ width) × (width ≤ 6) }
    ensures { ValueAgrees part.now (read_factor width (before previous) (left_at part.now place.at)) 64 result }
{
    match previous {
        Some(previous) if width != 6 => read_delta(part, place, width, previous),
        _ => read_number(part, place, 6),
    }
}
