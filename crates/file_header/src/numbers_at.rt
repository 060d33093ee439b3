// The numbers of a header of 96 bytes, each from where its piece stands.
ghost use Rattle.std.specs.Prelude.{◌≡◌, ◌+◌, ◌≤◌, ◌<◌, length};
ghost use Rattle.rules_files.specs.FileHeader.{piece};
ghost use Rattle.rules_files.specs.HeaderReading.{number_at, stands, looped, tail_of, loop_at, fields_of, zero_bytes};
ghost use Rattle.rules_files.specs.HeaderReadFits.{LoopWords, LoopFits, FieldsFit};

use numbers::high::get_high;
use rules_files::header::{FileHeader, LoopFields};

// A number of up to four bytes.
pub fn number_at(header: &[u8], at: usize, width: usize) -> u64
    requires { (at + width ≤ length header.now) × (width ≤ 4) }
    ensures { (result ≡ number_at header.now (piece at width 0)) × (result < 4294967296) }
{
    get_high(header, at, width)
}

// The same as a size.
fn size_at(header: &[u8], at: usize, width: usize) -> usize
    requires { (at + width ≤ length header.now) × (width ≤ 4) }
    ensures { (result ≡ number_at header.now (piece at width 0)) × (result < 4294967296) }
{
    number_at(header, at, width) as usize
}

// Does this number stand there?
pub fn stands(header: &[u8], at: usize, width: usize, value: u64) -> bool
    requires { (at + width ≤ length header.now) × (width ≤ 4) }
    ensures { result ≡ stands header.now (piece at width value) }
{
    number_at(header, at, width) == value
}

pub fn is_looped(header: &[u8; 96]) -> bool
    ensures { result ≡ looped header.now }
{
    stands(header, 40, 4, 0x6C6F_6F70)
}

// Where the chunk behind the loop, or in its place, stands.
pub fn tail_of(header: &[u8; 96]) -> usize
    ensures { (result ≡ tail_of header.now) × (result ≤ 56) }
{
    if is_looped(header) { 56 } else { 40 }
}

// The loop's four numbers.
fn loop_at(header: &[u8; 96]) -> LoopFields
    ensures { (result ≡ loop_at header.now) × LoopWords result }
{
    LoopFields {
        start_frame: number_at(header, 44, 4),
        end_frame: number_at(header, 48, 4),
        delay: number_at(header, 52, 2),
        padding: number_at(header, 54, 2),
    }
}

fn points_of(header: &[u8; 96]) -> Option<LoopFields>
    ensures { (result ≡ (fields_of header.now).points) × LoopFits result }
{
    if is_looped(header) {
        Some(loop_at(header))
    } else {
        None
    }
}

// All fields, whatever they are.
pub fn fields_of(header: &[u8; 96]) -> FileHeader
    ensures { (result ≡ fields_of header.now) × FieldsFit result }
{
    FileHeader {
        channels: size_at(header, 12, 1),
        rate: number_at(header, 13, 3),
        frames: number_at(header, 16, 4),
        padding: number_at(header, 22, 2),
        frame_size: size_at(header, 28, 2),
        minimum: size_at(header, 30, 1),
        maximum: size_at(header, 31, 1),
        total: size_at(header, 34, 1),
        base: size_at(header, 35, 1),
        stereo: size_at(header, 36, 1),
        points: points_of(header),
    }
}

// Is every byte from one place up to another 0?
pub fn zero_bytes(header: &[u8], from: usize, to: usize) -> bool
    requires { (from ≤ to) × (to ≤ length header.now) }
    ensures { result ≡ zero_bytes header.now from to }
{
    header[from..to].iter().all(|&byte| byte == 0)
}
