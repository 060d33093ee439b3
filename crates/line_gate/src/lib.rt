// Request A5, the gate of a line: refusals 1, 18 and 2, and where each frame's part of a buffer begins.
#![tactic(auto)]

ghost use Rattle.std.specs.Prelude.{◌≡◌, ◌+◌, ◌*◌, ◌^◌, ◌≤◌};
ghost use Rattle.rules.specs.Layout.{LegalLayout};
ghost use Rattle.rules_line.specs.Line.{batch_fits, line_has_room, line_gate};
ghost use Rattle.line_gate.specs.Gate.{line_gate_outcome};

use rules::{Layout, StageRoom};
use rules_line::{LineRefusal, Tally};

// 2^63: a tally with a count above it lets no line in.
const COUNT_LIMIT: u64 = 0x8000_0000_0000_0000;

// Refusal 18 is judged by count and tally alone.
pub fn batch_fits(count: usize, tally: Tally) -> bool
    ensures { result ≡ batch_fits count tally }
{
    count <= 65535
        && tally.frames <= COUNT_LIMIT
        && tally.bits <= COUNT_LIMIT
        && tally.pairs <= COUNT_LIMIT
}

// Where part k of a buffer begins, of `length` elements each.
pub fn part_start(k: usize, length: usize) -> usize
    requires { k * length ≤ 2 ^ 32 }
    ensures { result ≡ k * length }
{
    k * length
}

// Is there room for `count` frames? The work buffers have one frame's length.
pub fn line_room(layout: Layout, count: usize, room: StageRoom, answers: usize) -> bool
    requires legal_layout { LegalLayout layout }
    requires count_bound { count ≤ 65535 }
    ensures { result ≡ line_has_room layout count room answers }
{
    let stored = room.stored;
    let n = layout.channels * 1024;
    let m = layout.channels * 8;
    part_start(count, n) <= room.spectra
        && part_start(count, m) <= room.intensities
        && n <= room.scaled
        && layout.channels * 128 <= stored.factors
        && m <= stored.side
        && n <= stored.codes
        && part_start(count, layout.frame_size) <= stored.frame
        && count * 4 <= answers
}

// The gate: the first refusal in its order, if any. It refuses no frame.
pub fn line_gate<R>(
    layout: Layout,
    count: usize,
    room: StageRoom,
    answers: usize,
    tally: Tally,
) -> Result<(), LineRefusal<R>>
    ensures { line_gate_outcome result ≡ line_gate layout count room answers tally }
{
    if !layouts::legal(layout) {
        return Err(LineRefusal::BadLayout);
    }
    if !batch_fits(count, tally) {
        return Err(LineRefusal::BadBatch);
    }
    if !line_room(layout, count, room, answers) {
        return Err(LineRefusal::ShortBuffer);
    }
    Ok(())
}
