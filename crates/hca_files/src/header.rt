// The file header by numbers and slices only, no `requires`.
ghost use Rattle.std.specs.Prelude.{◌≡◌, ◌≤◌, length};
ghost use Rattle.rules_files.specs.FileHeader.{write_header};
ghost use Rattle.hca_files.specs.WriteHeader.{points_of, stream_of, c_header_left, c_header_from, c_write_header};

use hca_layout::{is_layout, layout_of};
use refusals::Refusal;
use rules::Layout;
use rules_files::header::{LoopPoints, Stream};

// No loop, or its start and end; more numbers are not looked at.
fn points_of(points: &[u64]) -> Option<LoopPoints>
    ensures { result ≡ points_of points.now }
{
    if points.len() < 2 {
        return None;
    }
    Some(LoopPoints {
        start: points[0],
        end: points[1],
    })
}

// Rate, count, padding; more numbers are not looked at.
fn stream_of(stream: &[u64], points: &[u64]) -> Stream
    requires { 3 ≤ length stream.now }
    ensures { result ≡ stream_of stream.now points.now }
{
    Stream {
        rate: stream[0],
        frames: stream[1],
        padding: stream[2],
        points: points_of(points),
    }
}

// The header of a layout and a stream, and its refusal told.
fn write_and_store(layout: Layout, stream: Stream, header: &mut [u8]) -> u32
    ensures { c_header_left result header.new ≡ c_header_from (write_header layout stream header.old) }
{
    match file_header::write_header(layout, stream, header) {
        Ok(()) => 0,
        Err(e) => Refusal::from(e).number as u32,
    }
}

// The file header. stream: rate, count, padding; points: none, or start and end.
pub fn write_header(
    layout: &[u32],
    kinds: &[u8],
    stream: &[u64],
    points: &[u64],
    header: &mut [u8],
) -> u32
    ensures { c_header_left result header.new ≡ c_write_header layout.now kinds.now stream.now
        points.now header.old }
{
    if !is_layout(layout, kinds) {
        return 1;
    }
    if stream.len() < 3 {
        return 2;
    }
    if points.len() == 1 {
        return 2;
    }
    let l = layout_of(layout, kinds);
    let s = stream_of(stream, points);
    write_and_store(l, s, header)
}
