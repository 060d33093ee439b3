// Whether bytes are a list: the judgement that its reader, its lookup and its summary share, and one entry of its bytes.
ghost use Rattle.std.specs.Prelude.{◌≡◌, ◌+◌, ◌*◌, ◌<◌, ◌≤◌, length, take, drop};
ghost use Rattle.numbers.specs.Numbers.{of_high};
ghost use Rattle.rules_files.specs.List.{entry_from, legal_entry, legal_entries, frames_in, entry_in, entries_of, is_marked, judged_list};

use numbers::high::get_high;
use rules_files::list::{Entry, ListFault};

// Is an entry within its limits?
pub fn is_legal_entry(entry: Entry) -> bool
    ensures { result ≡ legal_entry entry }
{
    entry.level <= 511 && entry.boundary <= 127 && entry.pairs <= 63
}

// A number of up to four bytes.
fn get_word(bytes: &[u8], at: usize, width: usize) -> u32
    requires { (at + width ≤ length bytes.now) × (width ≤ 4) }
    ensures { result ≡ of_high (take width (drop at bytes.now)) }
{
    get_high(bytes, at, width) as u32
}

// Eight bytes as an entry.
fn entry_from(bytes: &[u8; 8]) -> Entry
    ensures { result ≡ entry_from bytes.now }
{
    Entry {
        level: get_word(bytes, 0, 2),
        boundary: get_word(bytes, 2, 1),
        pairs: get_word(bytes, 3, 1),
        bits: get_word(bytes, 4, 4),
    }
}

// Entry i of a list's bytes.
pub fn entry_in(list: &[u8], i: usize) -> Entry
    requires { 9 + (i * 8 + 8) ≤ length list.now }
    ensures { result ≡ entry_in list.now i }
{
    let (entries, _) = list[9..].as_chunks::<8>();
    entry_from(&entries[i])
}

// At least nine bytes, the mark and the version?
fn is_marked(list: &[u8]) -> bool
    ensures { result ≡ is_marked list.now }
{
    list.len() >= 9 && get_high(list, 0, 3) == 0x564649 && get_high(list, 3, 2) == 1
}

// How many frames the list counts.
fn frames_in(list: &[u8]) -> usize
    requires { 9 ≤ length list.now }
    ensures { (result ≡ frames_in list.now) × (result < 4294967296) }
{
    get_high(list, 5, 4) as usize
}

// Is each of the n entries within its limits?
fn are_legal(list: &[u8], n: usize) -> bool
    requires { (n ≡ frames_in list.now) × (9 + n * 8 ≤ length list.now) }
    ensures { result ≡ legal_entries n (entries_of list.now) }
{
    (0..n).all(|i| is_legal_entry(entry_in(list, i)))
}

// Refusals 19, 20 and 21, in this order. The length is compared in 64 bits, which nine bytes and eight for each of 2^32 frames never pass.
pub fn judge_list(list: &[u8]) -> Result<usize, ListFault>
    ensures { result ≡ judged_list list.now }
{
    if !is_marked(list) {
        return Err(ListFault::BadMark);
    }
    let n = frames_in(list);
    if list.len() != 9 + n * 8 {
        return Err(ListFault::BadLength);
    }
    if !are_legal(list, n) {
        return Err(ListFault::BadEntry(n));
    }
    Ok(n)
}
