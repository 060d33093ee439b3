// The chunks of the file header, each put into its 96 bytes.
ghost use Rattle.std.specs.Prelude.{◌≡◌, ◌≤◌, length};
ghost use Rattle.rules.specs.Layout.{LegalLayout};
ghost use Rattle.rules_files.specs.FileHeader.{stamped, magic_pieces, format_pieces, frame_pieces, band_pieces};
ghost use Rattle.rules_files.specs.FileHeader.{field_pieces, loop_pieces, tail_pieces, after_loop, channel_config, PointsFit};

use crate::loop_points::loop_fields;
use layouts::bands_per_group;
use numbers::high::put_high;
use rules::Layout;
use rules_files::header::{LoopFields, LoopPoints, Stream};

const CHANNEL_MAPPING: [u8; 9] = [0, 1, 0, 4, 0, 1, 3, 7, 3];

// The channel configuration of one track.
pub fn channel_config(channels: usize) -> u8
    requires { channels ≤ 8 }
    ensures { result ≡ channel_config channels }
{
    CHANNEL_MAPPING[channels]
}

// `HCA\0`, version 0x0200, size.
pub fn put_magic(header: &mut [u8; 96])
    ensures { header.new ≡ stamped magic_pieces header.old }
{
    put_high(header, 0, 4, 0x4843_4100);
    put_high(header, 4, 2, 0x0200);
    put_high(header, 6, 2, 96);
}

// `fmt\0`.
pub fn put_format(channels: usize, stream: Stream, header: &mut [u8; 96])
    ensures { header.new ≡ stamped (format_pieces channels stream) header.old }
{
    put_high(header, 8, 4, 0x666D_7400);
    put_high(header, 12, 1, channels as u64);
    put_high(header, 13, 3, stream.rate);
    put_high(header, 16, 4, stream.frames);
    put_high(header, 20, 2, 128);
    put_high(header, 22, 2, stream.padding);
}

// `comp`, to the track count.
pub fn put_frame(layout: Layout, header: &mut [u8; 96])
    ensures { header.new ≡ stamped (frame_pieces layout) header.old }
{
    put_high(header, 24, 4, 0x636F_6D70);
    put_high(header, 28, 2, layout.frame_size as u64);
    put_high(header, 30, 1, layout.minimum as u64);
    put_high(header, 31, 1, layout.maximum as u64);
    put_high(header, 32, 1, 1);
}

// The rest of `comp`.
pub fn put_bands(layout: Layout, header: &mut [u8; 96])
    requires legal_layout { LegalLayout layout }
    requires channels_bound { layout.channels ≤ 8 }
    ensures { header.new ≡ stamped (band_pieces layout) header.old }
{
    let config = channel_config(layout.channels);
    let per_group = bands_per_group(layout);
    put_high(header, 33, 1, config as u64);
    put_high(header, 34, 1, layout.total as u64);
    put_high(header, 35, 1, layout.base as u64);
    put_high(header, 36, 1, layout.stereo as u64);
    put_high(header, 37, 1, per_group as u64);
}

fn put_fields(fields: LoopFields, header: &mut [u8; 96])
    ensures { header.new ≡ stamped (field_pieces fields) header.old }
{
    put_high(header, 40, 4, 0x6C6F_6F70);
    put_high(header, 44, 4, fields.start_frame);
    put_high(header, 48, 4, fields.end_frame);
    put_high(header, 52, 2, fields.delay);
    put_high(header, 54, 2, fields.padding);
}

// `loop`, where there is one; answers where the next chunk stands.
pub fn put_loop(points: Option<LoopPoints>, header: &mut [u8; 96]) -> usize
    requires { PointsFit points }
    ensures { (result ≡ after_loop points) × (result ≤ 56) × (header.new ≡ stamped (loop_pieces points) header.old) }
{
    let Some(points) = points else {
        return 40;
    };
    put_fields(loop_fields(points), header);
    56
}

// `ciph` with type 0, and `pad\0`.
pub fn put_tail(at: usize, header: &mut [u8; 96])
    requires { at ≤ 56 }
    ensures { header.new ≡ stamped (tail_pieces at) header.old }
{
    put_high(header, at, 4, 0x6369_7068);
    put_high(header, at + 4, 2, 0);
    put_high(header, at + 6, 4, 0x7061_6400);
}
