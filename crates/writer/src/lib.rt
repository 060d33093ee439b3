// The record writer: a legal record's frame, written into a lent buffer.
#![tactic(auto)]

// Is one value legal: level and boundary, a row, a code?
pub mod values;
// Is the record legal?
pub mod legality;

ghost use Rattle.std.specs.Prelude.{◌≡◌, ◌*◌, length};
ghost use Rattle.rules.specs.Layout.{LegalLayout, frame_size, room_of, HasRoom};
ghost use Rattle.rules.specs.Writer.{writer_lent, writer_left, record_written, write_record};

use crate::legality::is_legal;
use layouts::{has_room, legal};
use packing::pack_frame;
use resolutions::RESOLUTION_ROOM;
use rules::{Layout, RecordDelivery, Room, WriteRefusal};

// On buffers of the stated lengths. A record that is not legal is refusal 15; fields that pass the payload's end are refusal 7.
fn write_exact(
    layout: Layout,
    level: usize,
    boundary: usize,
    factors: &[u8],
    side: &[u8],
    codes: &[i32],
    resolutions: &mut [u8],
    frame: &mut [u8],
) -> Result<RecordDelivery, WriteRefusal>
    requires legal_layout { LegalLayout layout }
    requires factors_len { (length factors.now ≡ layout.channels * 128) × (length side.now ≡ layout.channels * 8)
        × (length codes.now ≡ layout.channels * 1024) × (length resolutions.old ≡ layout.channels * 128)
        × (length frame.old ≡ frame_size layout) }
    ensures { writer_left result frame.new ≡ record_written layout
        (writer_lent level boundary factors.now side.now codes.now frame.old) }
{
    if !is_legal(layout, level, boundary, factors, side, codes, resolutions) {
        return Err(WriteRefusal::NotLegal);
    }
    let bits = pack_frame(
        layout,
        level,
        boundary,
        factors,
        side,
        codes,
        resolutions,
        frame,
    );
    let end = 8 * (layout.frame_size - 2);
    if end < bits {
        return Err(WriteRefusal::TooLong(bits));
    }
    Ok(RecordDelivery {
        level,
        boundary,
        bits,
    })
}

// Lends the parts of the stated lengths, and room for the resolutions of up to 16 channels.
fn write_parts(
    layout: Layout,
    level: usize,
    boundary: usize,
    factors: &[u8],
    side: &[u8],
    codes: &[i32],
    frame: &mut [u8],
) -> Result<RecordDelivery, WriteRefusal>
    requires legal_layout { LegalLayout layout }
    requires has_room { HasRoom layout (room_of (length factors.now) (length side.now) (length codes.now) (length frame.old)) }
    ensures { writer_left result frame.new ≡ record_written layout
        (writer_lent level boundary factors.now side.now codes.now frame.old) }
{
    let m = layout.channels * 128;
    let k = layout.channels * 8;
    let n = layout.channels * 1024;
    let f = layout.frame_size;
    let mut resolutions = [0u8; RESOLUTION_ROOM];
    write_exact(
        layout,
        level,
        boundary,
        &factors[..m],
        &side[..k],
        &codes[..n],
        &mut resolutions[..m],
        &mut frame[..f],
    )
}

// Takes any arguments. Refusals 1, 2, 15 and 7, in this order.
pub fn write_record(
    layout: Layout,
    level: usize,
    boundary: usize,
    factors: &[u8],
    side: &[u8],
    codes: &[i32],
    frame: &mut [u8],
) -> Result<RecordDelivery, WriteRefusal>
    ensures { writer_left result frame.new ≡ write_record layout
        (writer_lent level boundary factors.now side.now codes.now frame.old) }
{
    let room = Room {
        factors: factors.len(),
        side: side.len(),
        codes: codes.len(),
        frame: frame.len(),
    };
    if !legal(layout) {
        return Err(WriteRefusal::BadLayout);
    }
    if !has_room(layout, room) {
        return Err(WriteRefusal::ShortBuffer);
    }
    write_parts(layout, level, boundary, factors, side, codes, frame)
}
