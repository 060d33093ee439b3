// The fill after the last code: whether it holds a 1, and what was found then.
ghost use Rattle.std.specs.Prelude.{◌≡◌, ◌*◌, ◌≤◌, length};
ghost use Rattle.bits.specs.Place.{left_at};
ghost use Rattle.rules.specs.Reading.{first_one};
ghost use Rattle.reader.specs.Ones.{ZerosBetween, Stopped};
ghost use Rattle.reader.specs.Filled.{Filled, FillIn, fill_found};

use bits::Place;
use reader_channels::level_and_boundary::Head;
use rules::{ReadRefusal, RecordDelivery};

// The first 1 from bit `from` on, up to bit `end`.
fn first_bit(part: &[u8], from: usize, end: usize) -> Option<usize>
    requires { (length part.now ≤ 65535) × (from ≤ end) × (end ≤ 8 * length part.now) }
    ensures { Stopped part.now from end result }
{
    for at in from..end {
        let here = Place { at };
        if here.look(part, 1) != 0 {
            return Some(at);
        }
    }
    None
}

// The first byte from `from` on that is not 0, or the part's end.
fn zero_bytes(part: &[u8], from: usize) -> usize
    requires { from ≤ length part.now }
    ensures { (result ≤ length part.now) × ZerosBetween part.now (8 * from) (8 * result) }
{
    for i in from..part.len() {
        if part[i] != 0 {
            return i;
        }
    }
    part.len()
}

// The first 1 from a place on: bit by bit to the next byte, byte by byte, and bit by bit from the byte that holds it.
pub fn first_one(part: &[u8], place: Place) -> Option<usize>
    requires { (length part.now ≤ 65535) × (place.at ≤ 8 * length part.now) }
    ensures { Filled part.now (first_one (left_at part.now place.at)) result }
{
    let whole = (place.at + 7) / 8;
    let edge = 8 * whole;
    let early = first_bit(part, place.at, edge);
    if early.is_some() {
        return early;
    }
    let byte = zero_bytes(part, whole);
    first_bit(part, 8 * byte, 8 * part.len())
}

// What the fill says after the last code. The frame's bits are the part's and the sync's 16.
pub fn after_fill(head: Head, fill: Option<usize>) -> Result<RecordDelivery, ReadRefusal>
    requires { (head.next.at ≤ 8 * 65535) × FillIn fill }
    ensures { result ≡ fill_found head fill }
{
    match fill {
        None => Ok(RecordDelivery {
            level: head.level,
            boundary: head.boundary,
            bits: head.next.at + 16,
        }),
        Some(bit) => Err(ReadRefusal::FillNotZero(bit + 16)),
    }
}
