// The strict reader: a frame back to its record, or the first thing that is wrong with it.
#![tactic(auto)]

// The fill after the last code.
pub mod fill;
// A refusal's bit, counted from the frame's first.
pub mod fault_bits;
// The record between sync and check.
pub mod record;
// The whole frame, on buffers of the stated lengths.
pub mod frame;

ghost use Rattle.std.specs.Prelude.{◌≡◌, length, take};
ghost use Rattle.rules.specs.Layout.{LegalLayout, frame_size, room_of, HasRoom};
ghost use Rattle.rules.specs.Reading.{strict};
ghost use Rattle.rules.specs.Reader.{reader_lent, reader_left, scanned_left, reader_overwrite, read_frame};

use crate::frame::read_exact;
use rules::{Layout, ReadRefusal, RecordDelivery, Room};

// Lends the buffers' parts of the stated lengths; a longer buffer's rest stays.
fn lend_exact(
    layout: Layout,
    frame: &[u8],
    factors: &mut [u8],
    side: &mut [u8],
    codes: &mut [i32],
) -> Result<RecordDelivery, ReadRefusal>
    requires legal_layout { LegalLayout layout }
    requires has_room { HasRoom layout (room_of (length factors.old) (length side.old) (length codes.old) (length frame.now)) }
    ensures { reader_left result factors.new side.new codes.new
        ≡ reader_overwrite (reader_lent frame.now factors.old side.old codes.old)
        (scanned_left layout (strict layout (take (frame_size layout) frame.now))) }
{
    let size = layout.frame_size;
    let f = layout.channels * 128;
    let s = layout.channels * 8;
    let n = layout.channels * 1024;
    read_exact(
        layout,
        &frame[..size],
        &mut factors[..f],
        &mut side[..s],
        &mut codes[..n],
    )
}

// The public call. It takes any arguments.
pub fn read_frame(
    layout: Layout,
    frame: &[u8],
    factors: &mut [u8],
    side: &mut [u8],
    codes: &mut [i32],
) -> Result<RecordDelivery, ReadRefusal>
    ensures { reader_left result factors.new side.new codes.new
        ≡ read_frame layout (reader_lent frame.now factors.old side.old codes.old) }
{
    if !layouts::legal(layout) {
        return Err(ReadRefusal::BadLayout);
    }
    let room = Room {
        factors: factors.len(),
        side: side.len(),
        codes: codes.len(),
        frame: frame.len(),
    };
    if !layouts::has_room(layout, room) {
        return Err(ReadRefusal::ShortBuffer);
    }
    lend_exact(layout, frame, factors, side, codes)
}
