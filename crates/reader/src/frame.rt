// A whole frame: its check, its sync, and the record between them; the answer, and buffers that a refusal leaves zero.
ghost use Rattle.std.specs.Prelude.{◌≡◌, length};
ghost use Rattle.rules.specs.Layout.{LegalLayout, frame_size};
ghost use Rattle.rules.specs.Reading.{strict};
ghost use Rattle.rules.specs.Reader.{reader_left, scanned_left};
ghost use Rattle.reader.specs.Scans.{found_left, ReaderLengths};

use crate::record::read_record;
use bits::Place;
use rules::{Layout, ReadRefusal, RecordDelivery};

// A frame's first two bytes.
const SYNC: u32 = 0xFFFF;

// The check, the sync, and what stands between them.
fn scan_frame(
    layout: Layout,
    frame: &[u8],
    factors: &mut [u8],
    side: &mut [u8],
    codes: &mut [i32],
) -> Result<RecordDelivery, ReadRefusal>
    requires legal_layout { LegalLayout layout }
    requires frame_len { length frame.now ≡ frame_size layout }
    requires reader_lengths { ReaderLengths layout (length factors.old) (length side.old) (length codes.old) }
    ensures { found_left layout factors.new side.new codes.new result
        ≡ scanned_left layout (strict layout frame.now) }
{
    if !sealing::is_sealed(frame) {
        return Err(ReadRefusal::WrongCheck);
    }
    let start = Place { at: 0 };
    let sync = start.look(frame, 16);
    if sync != SYNC {
        return Err(ReadRefusal::WrongSync);
    }
    let end = frame.len() - 2;
    read_record(layout, &frame[2..end], factors, side, codes)
}

// On buffers of the stated lengths, which a refusal leaves zero.
pub fn read_exact(
    layout: Layout,
    frame: &[u8],
    factors: &mut [u8],
    side: &mut [u8],
    codes: &mut [i32],
) -> Result<RecordDelivery, ReadRefusal>
    requires legal_layout { LegalLayout layout }
    requires frame_len { length frame.now ≡ frame_size layout }
    requires reader_lengths { ReaderLengths layout (length factors.old) (length side.old) (length codes.old) }
    ensures { reader_left result factors.new side.new codes.new
        ≡ scanned_left layout (strict layout frame.now) }
{
    let found = scan_frame(layout, frame, factors, side, codes);
    if found.is_err() {
        factors.fill(0);
        side.fill(0);
        codes.fill(0);
    }
    found
}
