// The check of a frame: CRC16, high bit first, start 0, polynomial 0x8005. Byte by byte, from a table of 256 numbers.
// Eight bytes at a time it is in crc_sliced; the checksum of a whole message, and frames sealed by it, are in sealing.
#![tactic(auto)]

ghost use Rattle.std.specs.Prelude.{◌≡◌, [], ◌∷◌};
ghost use Rattle.crc.specs.Check.{checksum};
ghost use Rattle.crc.specs.Table.{fed, feed};

mod entries;

// The checksum of the byte n. A `static` is read where it lies; an array in a constant would be written out anew at each read.
fn entry(n: u8) -> u16
    ensures { result ≡ checksum (n ∷ []) }
{
    entries::CRC16_TABLE[n as usize]
}

// The checksum with one byte more.
fn crc16_step(sum: u16, byte: u8) -> u16
    ensures { result ≡ fed sum byte }
{
    (sum << 8) ^ entry((sum >> 8) as u8 ^ byte)
}

// The checksum with these bytes more.
pub fn crc16_feed(start: u16, bytes: &[u8]) -> u16
    ensures { result ≡ feed start bytes.now }
{
    let mut sum = start;
    for &byte in bytes {
        sum = crc16_step(sum, byte);
    }
    sum
}
