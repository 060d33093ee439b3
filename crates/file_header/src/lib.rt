// The file header: 96 bytes in front of the frames, written into a lent buffer, and read back.
#![tactic(auto)]

// Loop points as the fields of the loop chunk.
pub mod loop_points;
// The chunks, each put into the 96 bytes.
pub mod chunks;
// Whether a number of a header's, and a loop, are right: what its passes share.
pub mod numbers_at;
// The three passes over a header that is sealed: names, fields, the rest.
pub mod judging;
// The reader's call, the layout and the stream back.
pub mod reading;

ghost use Rattle.std.specs.Prelude.{◌≡◌, length};
ghost use Rattle.rules.specs.Layout.{LegalLayout};
ghost use Rattle.rules_files.specs.FileHeader.{pieces, stamped, header_of, fits_points, fits_header, HeaderFits, header_left, write_header};

use crate::chunks::{put_bands, put_format, put_frame, put_loop, put_magic, put_tail};
use buffers::clear;
use layouts::legal;
use rules::Layout;
use rules_files::header::{HeaderRefusal, LoopPoints, Stream};
use sealing::seal;

// Does each point keep to 32 bits when 128 is added?
fn fits_points(points: Option<LoopPoints>) -> bool
    ensures { result ≡ fits_points points }
{
    let Some(points) = points else {
        return true;
    };
    points.start <= 4294967167 && points.end <= 4294967167
}

// Does every number fit its field?
fn fits_header(layout: Layout, stream: Stream) -> bool
    ensures { result ≡ fits_header layout stream }
{
    layout.channels <= 8
        && 1 <= stream.rate
        && stream.rate <= 0x7F_FFFF
        && stream.frames <= 0xFFFF_FFFF
        && stream.padding <= 0xFFFF
        && fits_points(stream.points)
}

fn put_chunks(layout: Layout, stream: Stream, header: &mut [u8; 96])
    requires legal_layout { LegalLayout layout }
    requires header_fits { HeaderFits layout stream }
    ensures { header.new ≡ stamped (pieces layout stream) header.old }
{
    put_magic(header);
    put_format(layout.channels, stream, header);
    put_frame(layout, header);
    put_bands(layout, header);
    let next = put_loop(stream.points, header);
    put_tail(next, header);
}

fn write_exact(layout: Layout, stream: Stream, header: &mut [u8; 96])
    requires legal_layout { LegalLayout layout }
    requires header_fits { HeaderFits layout stream }
    ensures { header.new ≡ header_of layout stream }
{
    clear(header);
    put_chunks(layout, stream, header);
    seal(header);
}

// Takes any arguments. Refusals 1, 2 and 16, in this order.
pub fn write_header(layout: Layout, stream: Stream, header: &mut [u8]) -> Result<(), HeaderRefusal>
    ensures { header_left result header.new ≡ write_header layout stream header.old }
{
    if !legal(layout) {
        return Err(HeaderRefusal::BadLayout);
    }
    let Some(header) = header.first_chunk_mut::<96>() else {
        return Err(HeaderRefusal::ShortBuffer);
    };
    if !fits_header(layout, stream) {
        return Err(HeaderRefusal::BadHeader);
    }
    write_exact(layout, stream, header);
    Ok(())
}
