// A file of vectors, read from its front.
ghost use Rattle.std.specs.Prelude.{◌≤◌, length};

use crate::word::Word;
use rules::Layout;

// The most words that a list has.
pub const MOST: usize = 16_384;

// What is left to be read. Past its end all is 0, and it counts as cut.
#[derive(Clone, Copy)]
pub struct Cursor<'a> {
    rest: &'a [u8],
    is_cut: bool,
}

impl<'a> Cursor<'a> {
    pub fn new(bytes: &'a [u8]) -> Cursor<'a> {
        Cursor {
            rest: bytes,
            is_cut: false,
        }
    }

    // Was all there that was read, and is nothing left?
    pub fn is_at_end(&self) -> bool {
        !self.is_cut && self.rest.is_empty()
    }

    // The next n bytes, or as many as there are.
    pub fn bytes(&mut self, n: usize) -> &'a [u8] {
        let all = self.rest;
        let Some((front, rest)) = all.split_at_checked(n) else {
            self.rest = &[];
            self.is_cut = true;
            return all;
        };
        self.rest = rest;
        front
    }

    // The next number of 32 bits, the low byte first.
    pub fn word(&mut self) -> u32 {
        let mut word = [0; 4];
        for (out, &byte) in word.iter_mut().zip(self.bytes(4)) {
            *out = byte;
        }
        u32::from_le_bytes(word)
    }

    pub fn count(&mut self) -> usize {
        self.word() as usize
    }

    pub fn words<const N: usize>(&mut self) -> [u32; N] {
        let mut words = [0; N];
        for word in &mut words {
            *word = self.word();
        }
        words
    }

    // Bytes with their number before them.
    pub fn counted_bytes(&mut self) -> &'a [u8] {
        let n = self.count();
        self.bytes(n)
    }

    // A layout with its kinds. The C interface also takes fewer kinds than channels, and kinds that there are not: here there is none for those.
    pub fn layout(&mut self) -> Option<Layout> {
        let numbers: [u32; 5] = self.words();
        let channels = numbers[0] as usize;
        let count = self.count();
        let kinds = self.bytes(count);
        if count < channels || kinds.iter().take(channels.min(16)).any(|&kind| 2 < kind) {
            return None;
        }
        Some(hca_layout::layout_of(&numbers, kinds))
    }

    // A run of a list: where it starts, how many words it has, and these.
    fn run(&mut self, list: &mut [u8; 4 * MOST]) {
        let start = self.count().min(MOST);
        let n = self.count().min(MOST);
        let run = self.bytes(4 * n);
        for (out, &byte) in list[4 * start..].iter_mut().zip(run) {
            *out = byte;
        }
    }

    // A list of words that are 0 but for some runs: how many words, how many runs, and these. Answers how many of `out` are the list's.
    pub fn list<W: Word>(&mut self, out: &mut [W]) -> usize
        ensures { result ≤ length out.new }
    {
        let mut list = [0; 4 * MOST];
        let n = self.count();
        for _ in 0..self.count().min(MOST) {
            self.run(&mut list);
        }
        let (words, _) = list.as_chunks();
        take_words(words, out);
        n.min(out.len())
    }
}

// Words from their bytes, the low byte first.
fn take_words<W: Word>(words: &[[u8; 4]], out: &mut [W]) {
    for (out, &word) in out.iter_mut().zip(words) {
        *out = W::from_bits(u32::from_le_bytes(word));
    }
}
