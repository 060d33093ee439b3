// Document 01, **Frame** and **Check**: a record's frame, written into a lent buffer.
#![tactic(auto)]

ghost use Rattle.std.specs.Prelude.{◌≡◌, cond, ◌*◌, ◌≤◌, ltb, length, replicate};
ghost use Rattle.bits.specs.Place.{Written};
ghost use Rattle.rules.specs.Layout.{LegalLayout, frame_size};
ghost use Rattle.rules.specs.Record.{rec_of};
ghost use Rattle.rules.specs.Resolution.{all_resolutions};
ghost use Rattle.rules.specs.Fields.{fields};
ghost use Rattle.rules.specs.Frame.{field_end, frame_of};
ghost use Rattle.packing_codes.specs.Columns.{AllRanged};

use buffers::clear;
use emission::Run;
use packing_channels::values::write_head;
use packing_channels::write_channels;
use packing_codes::write_codes;
use resolutions::RESOLUTION_ROOM;
use rules::Layout;
use sealing::seal;

// All fields, from the first bit on, and zeros after them; how many bits they are.
fn write_fields(
    layout: Layout,
    level: usize,
    boundary: usize,
    factors: &[u8],
    side: &[u8],
    codes: &[i32],
    resolutions: &[u8],
    bytes: &mut [u8],
) -> usize
    requires legal_layout { LegalLayout layout }
    requires level_bound { (level ≤ 511) × (boundary ≤ 127) }
    requires factors_len { (length factors.now ≡ layout.channels * 128) × (length side.now ≡ layout.channels * 8)
        × (length codes.now ≡ layout.channels * 1024) }
    requires resolutions_value { resolutions.now ≡ all_resolutions layout level boundary factors.now }
    requires all_ranged { AllRanged layout resolutions.now codes.now }
    ensures { (length bytes.new ≡ length bytes.old) × Written bytes.new result (fields layout
        (rec_of layout level boundary factors.now side.now codes.now)) }
{
    let mut rows = [0u32; RESOLUTION_ROOM];
    let mut words = [0u32; 128];
    let mut lengths = [0u32; 128];
    let start = Run {
        bits: 0,
        n: 0,
        at: 0,
    };
    let head = write_head(start, bytes, level, boundary);
    let next = write_channels(head, bytes, layout, factors, side);
    let end = write_codes(
        next,
        bytes,
        layout,
        resolutions,
        codes,
        &mut rows[..layout.channels * 128],
        &mut words,
        &mut lengths,
    );
    end.close(bytes)
}

// The record's frame, sealed; zeros where its fields pass the payload's end. Answers how many bits the fields are.
pub fn pack_frame(
    layout: Layout,
    level: usize,
    boundary: usize,
    factors: &[u8],
    side: &[u8],
    codes: &[i32],
    resolutions: &[u8],
    frame: &mut [u8],
) -> usize
    requires legal_layout { LegalLayout layout }
    requires level_bound { (level ≤ 511) × (boundary ≤ 127) }
    requires factors_len { (length factors.now ≡ layout.channels * 128) × (length side.now ≡ layout.channels * 8)
        × (length codes.now ≡ layout.channels * 1024) }
    requires resolutions_value { (resolutions.now ≡ all_resolutions layout level boundary factors.now) × (length frame.old ≡ frame_size layout) }
    requires all_ranged { AllRanged layout resolutions.now codes.now }
    ensures bits { result ≡ length (fields layout (rec_of layout level boundary factors.now side.now codes.now)) }
    ensures stored { frame.new ≡ cond (ltb (field_end layout) result) (replicate (frame_size layout) 0)
        (frame_of layout (rec_of layout level boundary factors.now side.now codes.now)) }
{
    let end = layout.frame_size - 2;
    let count = write_fields(
        layout,
        level,
        boundary,
        factors,
        side,
        codes,
        resolutions,
        &mut frame[..end],
    );
    if 8 * end < count {
        clear(frame);
        return count;
    }
    seal(frame);
    count
}
