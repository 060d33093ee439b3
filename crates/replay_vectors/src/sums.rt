// FNV-1a of 32 bits over a lent buffer's bytes, a word's low byte first.
use crate::word::Word;

const BASIS: u32 = 2_166_136_261;

const PRIME: u32 = 16_777_619;

// The sum with these bytes behind it.
fn mix(sum: u32, bytes: &[u8]) -> u32 {
    bytes.iter().fold(
        sum,
        |sum, &byte| (sum ^ u32::from(byte)).wrapping_mul(PRIME),
    )
}

pub fn sum_bytes(bytes: &[u8]) -> u32 {
    mix(BASIS, bytes)
}

pub fn sum_words<W: Word>(words: &[W]) -> u32 {
    let mut sum = BASIS;
    for &word in words {
        sum = mix(sum, &word.bits().to_le_bytes());
    }
    sum
}
