// A row: a channel's factors with their width, or its side values, read from the part of the frame after the sync.
ghost use Rattle.std.specs.Prelude.{◌≡◌, ◌≤◌, length};
ghost use Rattle.bits.specs.Place.{left_at};
ghost use Rattle.rules.specs.Format.{each, times, number};
ghost use Rattle.rules.specs.Reading.{read_factors, read_width};
ghost use Rattle.reader_channels.specs.Steps.{Inside};
ghost use Rattle.reader_channels.specs.StoredRow.{StoredRow};

use crate::values::faults::Fault;
use crate::values::{read_factor, read_number};
use crate::width_choice::{is_chosen, width_fits};
use bits::Place;

// A channel's coded factors at a width up to 6; the others are set to 0.
fn read_factors(
    part: &[u8],
    place: Place,
    width: u32,
    coded: usize,
    factors: &mut [u8],
) -> Result<Place, Fault>
    requires inside { Inside part.now place.at }
    requires width_bound { (width ≤ 6) × (coded ≤ 128) × (length factors.old ≡ 128) }
    ensures { StoredRow part.now (read_factors width coded (left_at part.now place.at)) coded 128 factors.new result }
{
    buffers::clear(factors);
    if width == 0 {
        return Ok(place);
    }
    let mut at = place;
    let mut previous = None;
    for slot in &mut factors[..coded] {
        let (factor, next) = read_factor(part, at, width, previous)?;
        *slot = factor as u8;
        previous = Some(factor as u8);
        at = next;
    }
    Ok(at)
}

// A channel's width and factors. A width that is not the chosen one is refused after the factors.
pub(crate) fn read_width(
    part: &[u8],
    place: Place,
    coded: usize,
    factors: &mut [u8],
) -> Result<Place, Fault>
    requires inside { Inside part.now place.at }
    requires coded_bound { (coded ≤ 128) × (length factors.old ≡ 128) }
    ensures { StoredRow part.now (read_width coded (left_at part.now place.at)) coded 128 factors.new result }
{
    let (width, next) = read_number(part, place, 3)?;
    if !width_fits(width, coded) {
        return Err(Fault::BadWidth(place.at));
    }
    let after = read_factors(part, next, width, coded, factors)?;
    if !is_chosen(width, factors, coded) {
        return Err(Fault::BadWidth(place.at));
    }
    Ok(after)
}

// A channel's side values, each a field of its own; the others of the eight are set to 0.
pub(crate) fn read_side(
    part: &[u8],
    place: Place,
    count: usize,
    width: u32,
    side: &mut [u8],
) -> Result<Place, Fault>
    requires inside { Inside part.now place.at }
    requires count_bound { (count ≤ 8) × (width ≤ 6) × (length side.old ≡ 8) }
    ensures { StoredRow part.now
        (each (λ _. number width) (times count) (left_at part.now place.at)) count 8 side.new result }
{
    buffers::clear(side);
    let mut at = place;
    for slot in &mut side[..count] {
        let (value, next) = read_number(part, at, width)?;
        *slot = value as u8;
        at = next;
    }
    Ok(at)
}
