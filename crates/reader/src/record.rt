// The record in the part of a frame between its sync and its check.
ghost use Rattle.std.specs.Prelude.{◌≡◌, ◌*◌, ◌≤◌, length};
ghost use Rattle.bits.specs.Place.{left_at};
ghost use Rattle.rules.specs.Layout.{LegalLayout, factor_length, spectrum_length};
ghost use Rattle.rules.specs.Resolution.{all_resolutions};
ghost use Rattle.rules.specs.Reader.{scanned_left};
ghost use Rattle.reader_codes.specs.Rows.{read_subframes, Subframes};
ghost use Rattle.reader.specs.Scans.{FieldsRead, scan_part, found_left, ReaderLengths};

use crate::fault_bits::in_frame;
use crate::fill::{after_fill, first_one};
use bits::Place;
use reader_channels::level_and_boundary::Head;
use reader_channels::read_head_and_channels;
use reader_channels::values::faults::Fault;
use reader_codes::read_all_codes;
use resolutions::{RESOLUTION_ROOM, calculate_frame_resolutions};
use rules::{Layout, ReadRefusal, RecordDelivery};

// Every code, at the resolutions that level, boundary and factors give, which go into a lent buffer.
fn read_resolved(
    layout: Layout,
    head: Head,
    factors: &[u8],
    part: &[u8],
    resolutions: &mut [u8],
    codes: &mut [i32],
) -> Result<Place, Fault>
    requires legal_layout { LegalLayout layout }
    requires level_bound { (head.level ≤ 511) × (length part.now ≤ 65535) × (head.next.at ≤ 8 * length part.now) }
    requires factors_len { (length factors.now ≡ factor_length layout) × (length resolutions.old ≡ factor_length layout)
        × (length codes.old ≡ spectrum_length layout) }
    ensures { Subframes layout part.now
        (read_subframes layout (all_resolutions layout head.level head.boundary factors.now) (left_at part.now head.next.at))
        codes.new result }
{
    calculate_frame_resolutions(layout, head.level, head.boundary, factors, resolutions);
    read_all_codes(layout, part, head.next, resolutions, codes)
}

// The same with a buffer for sixteen channels.
fn read_codes(
    layout: Layout,
    head: Head,
    factors: &[u8],
    part: &[u8],
    codes: &mut [i32],
) -> Result<Place, Fault>
    requires legal_layout { LegalLayout layout }
    requires level_bound { (head.level ≤ 511) × (length part.now ≤ 65535) × (head.next.at ≤ 8 * length part.now) }
    requires factors_len { (length factors.now ≡ factor_length layout) × (length codes.old ≡ spectrum_length layout) }
    ensures { Subframes layout part.now
        (read_subframes layout (all_resolutions layout head.level head.boundary factors.now) (left_at part.now head.next.at))
        codes.new result }
{
    let mut resolutions = [0u8; RESOLUTION_ROOM];
    let n = layout.channels * 128;
    read_resolved(layout, head, factors, part, &mut resolutions[..n], codes)
}

// Every field of the record, and the place after the last.
fn read_fields(
    layout: Layout,
    part: &[u8],
    factors: &mut [u8],
    side: &mut [u8],
    codes: &mut [i32],
) -> Result<Head, Fault>
    requires legal_layout { LegalLayout layout }
    requires part_len_bound { length part.now ≤ 65535 }
    requires reader_lengths { ReaderLengths layout (length factors.old) (length side.old) (length codes.old) }
    ensures { FieldsRead layout part.now factors.new side.new codes.new result }
{
    let head = read_head_and_channels(layout, part, factors, side)?;
    let next = read_codes(layout, head, factors, part, codes)?;
    Ok(Head { next, ..head })
}

// The whole record, and whether the fill after it is zero.
pub fn read_record(
    layout: Layout,
    part: &[u8],
    factors: &mut [u8],
    side: &mut [u8],
    codes: &mut [i32],
) -> Result<RecordDelivery, ReadRefusal>
    requires legal_layout { LegalLayout layout }
    requires part_len_bound { length part.now ≤ 65535 }
    requires reader_lengths { ReaderLengths layout (length factors.old) (length side.old) (length codes.old) }
    ensures { found_left layout factors.new side.new codes.new result
        ≡ scanned_left layout (scan_part layout part.now) }
{
    match read_fields(layout, part, factors, side, codes) {
        Ok(head) => after_fill(head, first_one(part, head.next)),
        Err(fault) => Err(in_frame(fault)),
    }
}
