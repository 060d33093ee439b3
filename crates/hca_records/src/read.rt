// The strict reader by numbers and slices only, no `requires`.
ghost use Rattle.std.specs.Prelude.{◌≡◌};
ghost use Rattle.rules.specs.Reader.{reader_lent, read_frame};
ghost use Rattle.hca_records.specs.ReadFrame.{c_reader_left, c_reader_from, c_read_frame};

use hca_answers::{refuse, store_read};
use hca_layout::{is_layout, layout_of};
use rules::Layout;

// The strict reader of a layout that is named, and its answer told.
fn read_and_store(
    layout: Layout,
    frame: &[u8],
    factors: &mut [u8],
    side: &mut [u8],
    codes: &mut [i32],
    answer: &mut [u32],
) -> u32
    ensures { c_reader_left result answer.new factors.new side.new codes.new
        ≡ c_reader_from (read_frame layout (reader_lent frame.now factors.old side.old codes.old))
        answer.old }
{
    let a = reader::read_frame(layout, frame, factors, side, codes);
    store_read(a, answer)
}

// The strict reader. answer: level, boundary, bits.
pub fn read_frame(
    layout: &[u32],
    kinds: &[u8],
    frame: &[u8],
    factors: &mut [u8],
    side: &mut [u8],
    codes: &mut [i32],
    answer: &mut [u32],
) -> u32
    ensures { c_reader_left result answer.new factors.new side.new codes.new
        ≡ c_read_frame layout.now kinds.now
        (reader_lent frame.now factors.old side.old codes.old) answer.old }
{
    if !is_layout(layout, kinds) {
        return refuse(1, 0, answer);
    }
    if answer.len() < 4 {
        return 2;
    }
    let l = layout_of(layout, kinds);
    read_and_store(l, frame, factors, side, codes, answer)
}
