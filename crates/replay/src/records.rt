// Cases of the strict reader, the record writer and the checksum.
use crate::lent::lent;
use refusals::Refusal;
use replay_vectors::cursor::{Cursor, MOST};
use replay_vectors::outcome::{Delivered, Outcome, Verdict};
use replay_vectors::sums::{sum_bytes, sum_words};
use rules::Layout;

// The body goes on with the three lengths, then the answer and the sums that are to come. Every byte of every written buffer is 0x5A before the call.
fn judge_read(layout: Layout, frame: &[u8], mut body: Cursor<'_>) -> Outcome {
    let lengths: [u32; 3] = body.words();
    let mut factors = [0x5Au8; 2048];
    let mut side = [0x5Au8; 128];
    let mut codes = [0x5A5A_5A5Ai32; MOST];
    let factors = lent(&mut factors, lengths[0]);
    let side = lent(&mut side, lengths[1]);
    let codes = lent(&mut codes, lengths[2]);
    let answer = reader::read_frame(layout, frame, factors, side, codes);
    let answer = answer.map(Delivered::Record).map_err(Refusal::from);
    let sums = [sum_bytes(factors), sum_bytes(side), sum_words(codes)];
    Outcome::judged(body, answer, sums)
}

pub(crate) fn read_case(mut body: Cursor<'_>) -> Outcome {
    let Some(layout) = body.layout() else {
        return Outcome::not_run(Verdict::Skipped);
    };
    let frame = body.counted_bytes();
    judge_read(layout, frame, body)
}

// What a case lends to the record writer.
#[derive(Clone, Copy)]
struct Record<'a> {
    level: usize,
    boundary: usize,
    factors: &'a [u8],
    side: &'a [u8],
    codes: &'a [i32],
}

// The body goes on with the frame's length, then the answer and the sum that are to come. Every byte of the frame is 0x5A before the call.
fn judge_write(layout: Layout, record: &Record<'_>, mut body: Cursor<'_>) -> Outcome {
    let mut frame = [0x5Au8; 2048];
    let frame = lent(&mut frame, body.word());
    let answer = writer::write_record(
        layout,
        record.level,
        record.boundary,
        record.factors,
        record.side,
        record.codes,
        frame,
    );
    let answer = answer.map(Delivered::Record).map_err(Refusal::from);
    Outcome::judged(body, answer, [sum_bytes(frame)])
}

pub(crate) fn write_case(mut body: Cursor<'_>) -> Outcome {
    let Some(layout) = body.layout() else {
        return Outcome::not_run(Verdict::Skipped);
    };
    let level = body.count();
    let boundary = body.count();
    let factors = body.counted_bytes();
    let side = body.counted_bytes();
    let mut codes = [0i32; MOST];
    let n = body.list(&mut codes);
    let record = Record {
        level,
        boundary,
        factors,
        side,
        codes: &codes[..n],
    };
    judge_write(layout, &record, body)
}

// The bytes, and the checksum that is to come.
pub(crate) fn check_case(mut body: Cursor<'_>) -> Outcome {
    let check = sealing::crc16_checksum(body.counted_bytes());
    let is_same = u32::from(check) == body.word();
    Outcome::after(body, Ok(Delivered::Check(check)), is_same)
}
