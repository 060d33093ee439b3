// Bit fields, high bit first, gathered in a number and stored eight bytes at a time into a lent frame.
#![tactic(auto)]

ghost use Rattle.std.specs.Prelude.{◌≡◌, ◌++◌, ℕ, ◌+◌, ◌*◌, ◌/◌, ◌%◌, ◌^◌, ◌<◌, ◌≤◌, length};
ghost use Rattle.bits.specs.Bits.{bits};
ghost use Rattle.emission.specs.Run.{Stored, Flushes, Emits, Closes, Fits, Joined, AllFit, field_bits};

// The place behind the last bit: byte `at`, after n bits of it. These n bits are the low ones of `bits`.
#[derive(Clone, Copy)]
pub struct Run {
    pub bits: u64,
    pub n: u32,
    pub at: usize,
}

// A field: the low `length` bits of a word that has no more.
#[derive(Clone, Copy)]
pub struct Piece {
    pub word: u32,
    pub length: u32,
}

// The eight bytes of w from byte `at` on, the highest first, as far as the payload reaches: one store where all eight are within it.
fn store(payload: &mut [u8], at: usize, w: u64)
    requires { at < 2 ^ 60 }
    ensures { Stored 8 payload.old at w payload.new }
{
    let bytes = w.to_be_bytes();
    if at + 8 <= payload.len() {
        payload[at..at + 8].copy_from_slice(&bytes);
    } else if at < payload.len() {
        let room = payload.len() - at;
        payload[at..].copy_from_slice(&bytes[..room]);
    }
}

impl Piece {
    // This field and the next as one.
    fn then(self, next: Piece) -> Piece
        requires { Fits 12 self × Fits 12 next }
        ensures { Joined self next result }
    {
        Piece {
            word: (self.word << next.length) | next.word,
            length: self.length + next.length,
        }
    }
}

impl Run {
    // Stores the n bits that wait, with zeros after them; at most 7 wait on.
    fn flush(self, payload: &mut [u8]) -> Run
        requires { (self.n ≤ 56) × (self.at < 2 ^ 60) }
        ensures { Flushes self payload.old result payload.new }
    {
        let w = (self.bits << 1) << (63 - self.n);
        let at = self.at;
        store(payload, at, w);
        Run {
            bits: self.bits,
            n: self.n & 7,
            at: at + (self.n >> 3) as usize,
        }
    }

    fn put_wide(self, payload: &mut [u8], value: u64, count: u32) -> Run
        requires { (count ≤ 48) × (value < 2 ^ count) × (self.n ≤ 7) × (self.at < 2 ^ 60) }
        ensures { Emits self payload.old (bits count value) result payload.new }
    {
        let more = Run {
            bits: (self.bits << count) | value,
            n: self.n + count,
            at: self.at,
        };
        more.flush(payload)
    }

    // One field.
    pub fn put(self, payload: &mut [u8], value: u32, count: u32) -> Run
        requires { (count ≤ 32) × (value < 2 ^ count) × (self.n ≤ 7) × (self.at < 2 ^ 60) }
        ensures { Emits self payload.old (bits count value) result payload.new }
    {
        self.put_wide(payload, value as u64, count)
    }

    // One field, the low `count` bits of a value.
    pub fn write(self, payload: &mut [u8], value: u32, count: u32) -> Run
        requires { (count ≤ 16) × (self.n ≤ 7) × (self.at < 2 ^ 60) }
        ensures { Emits self payload.old (bits count value) result payload.new
            × (8 * result.at + result.n ≡ 8 * self.at + self.n + count) }
    {
        let low = value & bits::ones(count);
        self.put(payload, low, count)
    }

    // Four fields, merged.
    pub fn put_four(self, payload: &mut [u8], a: Piece, b: Piece, c: Piece, d: Piece) -> Run
        requires fits { Fits 12 a × Fits 12 b × Fits 12 c × Fits 12 d }
        requires n_bound { (self.n ≤ 7) × (self.at < 2 ^ 60) }
        ensures { Emits self payload.old
            ((bits a.length a.word ++ bits b.length b.word) ++ (bits c.length c.word ++ bits d.length d.word))
            result payload.new }
    {
        let p = a.then(b);
        let q = c.then(d);
        let value = ((p.word as u64) << q.length) | q.word as u64;
        self.put_wide(payload, value, p.length + q.length)
    }

    // A row of fields, a multiple of 4, as columns of words and of lengths.
    pub fn put_all(self, payload: &mut [u8], words: &[u32], lengths: &[u32]) -> Run
        requires words_len { (length words.now % 4 ≡ 0) × (length lengths.now ≡ length words.now) × (length words.now < 2 ^ 56) }
        requires place { (self.n ≤ 7) × (self.at < 2 ^ 59) }
        requires all_fit { AllFit 12 lengths.now words.now (length words.now) }
        ensures { Emits self payload.old (field_bits lengths.now words.now) result payload.new
            × (8 * result.at + result.n ≤ 8 * self.at + self.n + 12 * length words.now) }
    {
        let mut run = self;
        for four in 0..words.len() / 4 {
            let i = four * 4;
            let a = Piece {
                word: words[i],
                length: lengths[i],
            };
            let b = Piece {
                word: words[i + 1],
                length: lengths[i + 1],
            };
            let c = Piece {
                word: words[i + 2],
                length: lengths[i + 2],
            };
            let d = Piece {
                word: words[i + 3],
                length: lengths[i + 3],
            };
            run = run.put_four(payload, a, b, c, d);
        }
        run
    }

    // Clears the bytes after the last bit's; how many bits there are.
    pub fn close(self, payload: &mut [u8]) -> usize
        requires { (self.n ≤ 7) × (self.at < 2 ^ 60) }
        ensures { Closes self payload.old result payload.new }
    {
        let count = self.at * 8 + self.n as usize;
        for i in (count + 7) >> 3..payload.len() {
            payload[i] = 0;
        }
        count
    }
}
