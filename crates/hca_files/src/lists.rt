// The list's calls by numbers and slices only, no `requires`.
ghost use Rattle.std.specs.Prelude.{◌≡◌};
ghost use Rattle.hca_files.specs.Lists.{c_list_left, c_write_list, c_entries_left, c_read_list, c_answer_left, c_list_entry, c_list_summary};

use crate::lists::storing::{store_entry, store_list, store_summary};
use refusals::Refusal;

mod storing;

// The list's writer.
pub fn list_write(frames: u32, entries: &[u32], list: &mut [u8]) -> u32
    ensures { c_list_left result list.new ≡ c_write_list frames entries.now list.old }
{
    match list::write_list(frames, entries, list) {
        Ok(()) => 0,
        Err(e) => Refusal::from(e).number as u32,
    }
}

// The list's reader. answer: frames.
pub fn list_read(list: &[u8], entries: &mut [u32], answer: &mut [u32]) -> u32
    ensures { c_entries_left result entries.new answer.new
        ≡ c_read_list list.now entries.old answer.old }
{
    if answer.len() < 4 {
        return 2;
    }
    let a = list::read_list(list, entries);
    store_list(a, answer)
}

// The lookup by frame number. answer: level, boundary, pairs, bits.
pub fn list_lookup(list: &[u8], frame: u32, answer: &mut [u32]) -> u32
    ensures { c_answer_left result answer.new ≡ c_list_entry list.now frame answer.old }
{
    if answer.len() < 4 {
        return 2;
    }
    let a = list::list_entry(list, frame);
    store_entry(a, answer)
}

// The summary. answer: highest level, most pairs, total of bits.
pub fn list_summary(list: &[u8], answer: &mut [u64]) -> u32
    ensures { c_answer_left result answer.new ≡ c_list_summary list.now answer.old }
{
    if answer.len() < 3 {
        return 2;
    }
    let a = list::list_summary(list);
    store_summary(a, answer)
}
