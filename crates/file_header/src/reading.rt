// The file header read back: request A14. Takes any bytes, changes none.
ghost use Rattle.std.specs.Prelude.{◌≡◌, length};
ghost use Rattle.rules_files.specs.HeaderReading.{points_back, stream_back, exact_read, read_header};
ghost use Rattle.rules_files.specs.HeaderReadFits.{ReadFits};

use crate::judging::{fields_right, loop_right, names_right, rest_zero};
use crate::numbers_at::fields_of;
use rules_files::header::{FileHeader, HeaderReadRefusal, LoopFields, LoopPoints, Stream};
use sealing::is_sealed;

// Refusals 26 to 29 of 96 bytes, in this order.
fn read_exact(header: &[u8; 96]) -> Result<FileHeader, HeaderReadRefusal>
    ensures { (result ≡ exact_read header.now) × ReadFits result }
{
    if !is_sealed(header) {
        return Err(HeaderReadRefusal::WrongCheck);
    }
    if !names_right(header) {
        return Err(HeaderReadRefusal::WrongName);
    }
    let fields = fields_of(header);
    if !fields_right(header, fields) {
        return Err(HeaderReadRefusal::BadField);
    }
    if !rest_zero(header) {
        return Err(HeaderReadRefusal::NotZero);
    }
    Ok(fields)
}

// Refusal 2, and those of the first 96 bytes. What stands behind them is not looked at.
pub fn read_file_header(header: &[u8]) -> Result<FileHeader, HeaderReadRefusal>
    ensures { (result ≡ read_header header.now) × ReadFits result }
{
    let Some(header) = header.first_chunk::<96>() else {
        return Err(HeaderReadRefusal::ShortBuffer);
    };
    read_exact(header)
}

// The loop's points in samples of the input; none for four numbers that the writer gives for no points.
fn points_back(points: Option<LoopFields>) -> Option<LoopPoints>
    ensures { result ≡ points_back points }
{
    let fields = points?;
    if !loop_right(points) {
        return None;
    }
    Some(LoopPoints {
        start: 1024 * fields.start_frame + fields.delay - 128,
        end: 1024 * (fields.end_frame + 1) - fields.padding - 128,
    })
}

// The stream of a header's fields.
pub fn stream_back(header: FileHeader) -> Stream
    ensures { result ≡ stream_back header }
{
    Stream {
        rate: header.rate,
        frames: header.frames,
        padding: header.padding,
        points: points_back(header.points),
    }
}
