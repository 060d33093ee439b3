// Entries in memory, and the list that is written of them.
ghost use Rattle.std.specs.Prelude.{◌≡◌, ◌++◌, ◌+◌, ◌*◌, ◌≤◌, length, drop};
ghost use Rattle.buffers.specs.Walk.{blocks};
ghost use Rattle.numbers.specs.Numbers.{high_first, replaced};
ghost use Rattle.rules.specs.Lent.{overwrite};
ghost use Rattle.rules_files.specs.List.{entry_bytes, entry_at, legal_entries, list_head, list_of};

use crate::judging::is_legal_entry;
use numbers::high::put_high;
use rules_files::list::Entry;

// Entry i of the numbers: level, boundary, pairs, bits, frame after frame.
fn entry_at(entries: &[u32], i: usize) -> Entry
    requires { i * 4 + 4 ≤ length entries.now }
    ensures { result ≡ entry_at entries.now i }
{
    let (entries, _) = entries.as_chunks::<4>();
    let [level, boundary, pairs, bits] = entries[i];
    Entry {
        level,
        boundary,
        pairs,
        bits,
    }
}

// Is each of the first n entries within its limits?
pub(crate) fn entries_legal(entries: &[u32], n: usize) -> bool
    requires { n * 4 ≤ length entries.now }
    ensures { result ≡ legal_entries n entries.now }
{
    (0..n).all(|i| is_legal_entry(entry_at(entries, i)))
}

fn put_word(bytes: &mut [u8], at: usize, width: usize, number: u32)
    requires { at + width ≤ length bytes.old }
    ensures { bytes.new ≡ replaced bytes.old at (high_first width number) }
{
    put_high(bytes, at, width, number as u64);
}

// An entry's eight bytes.
fn entry_bytes(entry: Entry) -> [u8; 8]
    ensures { result ≡ entry_bytes entry }
{
    let mut bytes = [0; 8];
    put_word(&mut bytes, 0, 2, entry.level);
    put_word(&mut bytes, 2, 1, entry.boundary);
    put_word(&mut bytes, 3, 1, entry.pairs);
    put_word(&mut bytes, 4, 4, entry.bits);
    bytes
}

fn put_entries(entries: &[u32], n: usize, bytes: &mut [u8])
    requires { (n * 4 ≤ length entries.now) × (n * 8 ≤ length bytes.old) }
    ensures { bytes.new ≡ blocks (λ i. entry_bytes (entry_at entries.now i)) n ++ drop (n * 8) bytes.old }
{
    for i in 0..n {
        let entry = entry_at(entries, i);
        let a = i * 8;
        bytes[a..a + 8].copy_from_slice(&entry_bytes(entry));
    }
}

// The mark, the version and the count over the first nine bytes.
fn put_head(frames: u32, list: &mut [u8])
    requires { 9 ≤ length list.old }
    ensures { list.new ≡ overwrite (list_head frames) list.old }
{
    put_word(list, 0, 3, 0x564649);
    put_word(list, 3, 2, 1);
    put_word(list, 5, 4, frames);
}

pub(crate) fn put_list(frames: u32, entries: &[u32], list: &mut [u8])
    requires { (frames * 4 ≤ length entries.now) × (9 + frames * 8 ≤ length list.old) }
    ensures { list.new ≡ overwrite (list_of frames entries.now) list.old }
{
    put_head(frames, list);
    put_entries(entries, frames as usize, &mut list[9..]);
}
