// One code at a time, from the part of a frame between its sync and its check.
ghost use Rattle.std.specs.Prelude.{◌*◌, ◌≤◌, ◌<◌, length};
ghost use Rattle.bits.specs.Place.{left_at};
ghost use Rattle.rules.specs.Format.{one_of};
ghost use Rattle.rules.specs.Fields.{small_bits};
ghost use Rattle.rules.specs.Reading.{codes_to, read_code};
ghost use Rattle.reader_codes.specs.CodeAgrees.{signed_code, CodeAgrees};

use crate::lookup::{seen_code, seen_length, with_sign, word_bits};
use bits::{PastEnd, Place};
use quantizer::tables::magnitude_bits;

// A code below resolution 8: one look ahead finds it and how many bits it has, and then its field is taken.
#[tactic(auto, using(crate::proofs::Ahead::look_small, crate::proofs::CodeAnswers::word_cut))]
fn read_word(part: &[u8], place: Place, resolution: u8) -> Result<(i32, Place), PastEnd>
    requires { (length part.now ≤ 65535) × (place.at ≤ 8 * length part.now) × (1 ≤ resolution) × (resolution < 8) }
    ensures { CodeAgrees part.now place.at
        (one_of (small_bits resolution) (codes_to resolution) (left_at part.now place.at)) result }
{
    let seen = place.look(part, word_bits(resolution));
    let (_, next) = place.get(part, seen_length(resolution, seen))?;
    Ok((seen_code(resolution, seen), next))
}

// A code from resolution 8 up, which is one field with its sign bit: cut at its sign, it names its first bit.
#[tactic(auto, using(crate::proofs::CodeAnswers::magnitude_cut, crate::proofs::CodeAnswers::sign_none, crate::proofs::CodeAnswers::sign_cut))]
fn read_signed(part: &[u8], place: Place, resolution: u8) -> Result<(i32, Place), PastEnd>
    requires { (length part.now ≤ 65535) × (place.at ≤ 8 * length part.now) × (resolution ≤ 15) }
    ensures { CodeAgrees part.now place.at (signed_code resolution (left_at part.now place.at)) result }
{
    let (magnitude, next) = place.get(part, magnitude_bits(resolution))?;
    if magnitude == 0 {
        return Ok((0, next));
    }
    let Ok((sign, end)) = next.get(part, 1) else {
        return Err(PastEnd { at: place.at });
    };
    Ok((with_sign(magnitude, sign), end))
}

#[tactic(auto, using(crate::proofs::CodeAnswers::code_none, crate::proofs::CodeAnswers::code_small, crate::proofs::CodeAnswers::code_large))]
pub fn read_code(part: &[u8], place: Place, resolution: u8) -> Result<(i32, Place), PastEnd>
    requires { (length part.now ≤ 65535) × (place.at ≤ 8 * length part.now) × (resolution ≤ 15) }
    ensures { CodeAgrees part.now place.at (read_code resolution (left_at part.now place.at)) result }
{
    match resolution {
        0 => Ok((0, place)),
        1..=7 => read_word(part, place, resolution),
        _ => read_signed(part, place, resolution),
    }
}
