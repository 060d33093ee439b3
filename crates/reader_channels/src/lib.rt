// The strict reader's channels: after level and boundary each channel's width, factors and side values.
#![tactic(auto)]

// One value: a number, and a factor; with the refusals found in a field.
pub mod values;
// Level and boundary, and what is known of a record while its fields are read.
pub mod level_and_boundary;
// Is a width the one that the writer chooses?
pub mod width_choice;
// A row: a channel's factors with their width, or its side values.
mod rows;

ghost use Rattle.std.specs.Prelude.{◌≡◌, ◌≤◌, ◌<◌, length};
ghost use Rattle.bits.specs.Place.{left_at};
ghost use Rattle.rules.specs.Layout.{LegalLayout, kind_at, kinds_of, factor_length, side_length};
ghost use Rattle.rules.specs.Format.{each};
ghost use Rattle.rules.specs.Reading.{read_channel};
ghost use Rattle.reader_channels.specs.Steps.{Inside};
ghost use Rattle.reader_channels.specs.Answers.{StoredChannel, StoredChannels};
ghost use Rattle.reader_channels.specs.Headed.{Headed};

use crate::level_and_boundary::{Head, read_head};
use crate::rows::{read_side, read_width};
use crate::values::faults::Fault;
use bits::Place;
use rules::Layout;

// A channel's width, factors and side values, into its 128 factors and its 8 side values.
fn read_channel(
    layout: Layout,
    channel: usize,
    part: &[u8],
    place: Place,
    factors: &mut [u8],
    side: &mut [u8],
) -> Result<Place, Fault>
    requires legal_layout { LegalLayout layout }
    requires inside { Inside part.now place.at }
    requires channel_bound { (channel < 16) × (length factors.old ≡ 128) × (length side.old ≡ 8) }
    ensures { StoredChannel layout channel part.now
        (read_channel layout (kind_at layout channel) (left_at part.now place.at))
        factors.new side.new result }
{
    let coded = layouts::coded_count(layout, channel);
    let next = read_width(part, place, coded, factors)?;
    let count = layouts::side_count(layout, channel);
    let width = layouts::side_width(layout, channel);
    read_side(part, next, count, width, side)
}

// Every channel's, one after the other.
fn read_channels(
    layout: Layout,
    part: &[u8],
    place: Place,
    factors: &mut [u8],
    side: &mut [u8],
) -> Result<Place, Fault>
    requires legal_layout { LegalLayout layout }
    requires inside { Inside part.now place.at }
    requires factors_len { (length factors.old ≡ factor_length layout) × (length side.old ≡ side_length layout) }
    ensures { StoredChannels layout part.now
        (each (read_channel layout) (kinds_of layout) (left_at part.now place.at))
        factors.new side.new result }
{
    let mut at = place;
    for c in 0..layout.channels {
        let f = c * 128;
        let s = c * 8;
        at = read_channel(
            layout,
            c,
            part,
            at,
            &mut factors[f..f + 128],
            &mut side[s..s + 8],
        )?;
    }
    Ok(at)
}

// Level, boundary and every channel's factors and side values.
pub fn read_head_and_channels(
    layout: Layout,
    part: &[u8],
    factors: &mut [u8],
    side: &mut [u8],
) -> Result<Head, Fault>
    requires legal_layout { LegalLayout layout }
    requires part_len_bound { (length part.now ≤ 65535) × (length factors.old ≡ factor_length layout) × (length side.old ≡ side_length layout) }
    ensures { Headed layout part.now factors.new side.new result }
{
    let head = read_head(part)?;
    let next = read_channels(layout, part, head.next, factors, side)?;
    Ok(Head { next, ..head })
}
