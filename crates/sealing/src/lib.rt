// The checksum of a whole message, a frame sealed by it, and the test whether a frame is. What a checksum is stands in crc.
#![tactic(auto)]

ghost use Rattle.std.specs.Prelude.{◌≡◌, ◌<◌, ◌≤◌, length};
ghost use Rattle.crc.specs.Check.{checksum};
ghost use Rattle.crc.specs.Sealed.{body, sealed, is_sealed};

use crc::crc16_feed;
use crc_sliced::crc16_eights;

// The checksum of a message: eight bytes at a time, and then byte by byte what is left over.
pub fn crc16_checksum(bytes: &[u8]) -> u16
    ensures { result ≡ checksum bytes.now }
{
    let (whole, rest) = bytes.split_at(bytes.len() - bytes.len() % 8);
    let sum = crc16_eights(0, whole);
    crc16_feed(sum, rest)
}

// Stores the check of the body in the last two bytes, the high byte first.
pub fn seal(frame: &mut [u8])
    requires { 2 ≤ length frame.old }
    ensures { frame.new ≡ sealed (body frame.old) }
{
    let n = frame.len() - 2;
    let sum = crc16_checksum(&frame[..n]);
    frame[n..].copy_from_slice(&sum.to_be_bytes());
}

// Are the last two bytes the check of the body?
pub fn is_sealed(frame: &[u8]) -> bool
    requires { 2 ≤ length frame.now }
    ensures { result ≡ is_sealed frame.now }
{
    let n = frame.len() - 2;
    let sum = crc16_checksum(&frame[..n]);
    let stored = u16::from_be_bytes([frame[n], frame[n + 1]]);
    stored == sum
}
