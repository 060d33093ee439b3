// The record writer by numbers and slices only, no `requires`.
ghost use Rattle.std.specs.Prelude.{◌≡◌};
ghost use Rattle.rules.specs.Writer.{writer_lent, write_record};
ghost use Rattle.hca_records.specs.WriteRecord.{c_writer_left, c_writer_from, c_write_record};

use hca_answers::{refuse, store_write};
use hca_layout::{is_layout, layout_of, wide};
use rules::Layout;

// The record writer of a layout that is named, and its answer told.
fn write_and_store(
    layout: Layout,
    level: usize,
    boundary: usize,
    factors: &[u8],
    side: &[u8],
    codes: &[i32],
    frame: &mut [u8],
    answer: &mut [u32],
) -> u32
    ensures { c_writer_left result answer.new frame.new
        ≡ c_writer_from (write_record layout (writer_lent level boundary factors.now side.now codes.now frame.old))
        answer.old }
{
    let a = writer::write_record(layout, level, boundary, factors, side, codes, frame);
    store_write(a, answer)
}

// The record writer. record: level, boundary; answer: level, boundary, bits.
pub fn write_record(
    layout: &[u32],
    kinds: &[u8],
    record: &[u32],
    factors: &[u8],
    side: &[u8],
    codes: &[i32],
    frame: &mut [u8],
    answer: &mut [u32],
) -> u32
    ensures { c_writer_left result answer.new frame.new
        ≡ c_write_record layout.now kinds.now «record».now factors.now side.now codes.now
        frame.old answer.old }
{
    if !is_layout(layout, kinds) {
        return refuse(1, 0, answer);
    }
    if answer.len() < 4 {
        return 2;
    }
    if record.len() < 2 {
        return refuse(2, 0, answer);
    }
    let l = layout_of(layout, kinds);
    let level = wide(record[0]);
    let boundary = wide(record[1]);
    write_and_store(l, level, boundary, factors, side, codes, frame, answer)
}
