// High-bit-first bit fields in a lent frame.
#![tactic(auto)]

ghost use Rattle.std.specs.Prelude.{◌≡◌, ◌-◌, ◌%◌, ◌^◌, ◌<◌, ◌≤◌, get_or};
ghost use Rattle.bits.specs.Bits.{word_at};
ghost use Rattle.bits.specs.Place.{field_at, look_at};

// A bit place, counted from the first bit of the frame or part that it is used with.
#[derive(Clone, Copy, Debug, PartialEq, Eq)]
pub struct Place {
    pub at: usize,
}

// A field that passes the end, by its first bit.
#[derive(Clone, Copy, Debug, PartialEq, Eq)]
pub struct PastEnd {
    pub at: usize,
}

// A number of n one bits.
pub fn ones(n: u32) -> u32
    requires { n < 32 }
    ensures { result ≡ 2 ^ n - 1 }
{
    (1u32 << n) - 1
}

// The low n bits of x.
fn low_bits(x: u32, n: u32) -> u32
    requires { n < 32 }
    ensures { result ≡ x % 2 ^ n }
{
    x & ones(n)
}

// How many bits of its byte stand before a place.
fn bits_before(at: usize) -> u32
    ensures { result ≡ at % 8 }
{
    (at % 8) as u32
}

fn byte_or_zero(s: &[u8], i: usize) -> u32
    ensures { (result ≡ get_or s.now i 0) × (result < 256) }
{
    s.get(i).copied().unwrap_or(0) as u32
}

// Three bytes as one number, the first byte highest; a byte past the end is 0.
fn window(s: &[u8], i: usize) -> u32
    requires { i < 2 ^ 61 }
    ensures { (result ≡ word_at s.now i) × (result < 2 ^ 24) }
{
    (byte_or_zero(s, i) << 16) | ((byte_or_zero(s, i + 1) << 8) | byte_or_zero(s, i + 2))
}

impl Place {
    // The number of the `bits` bits at this place, zeros standing past the part's end: one look ahead at a prefix code.
    pub fn look(self, part: &[u8], bits: u32) -> u32
        requires { (bits ≤ 16) × (self.at < 2 ^ 60) }
        ensures { (result ≡ look_at part.now self.at bits) × (result < 2 ^ bits) }
    {
        let at = self.at;
        let below = 24 - bits_before(at) - bits;
        low_bits(window(part, at >> 3) >> below, bits)
    }

    // The field of `bits` bits at this place of the part, with the place after it.
    pub fn get(self, part: &[u8], bits: u32) -> Result<(u32, Place), PastEnd>
        requires { (bits ≤ 16) × (self.at < 2 ^ 60) }
        ensures { result ≡ field_at part.now self.at bits }
    {
        let at = self.at;
        let end = at + bits as usize;
        if part.len() < (end + 7) >> 3 {
            return Err(PastEnd { at });
        }
        Ok((self.look(part, bits), Place { at: end }))
    }
}
