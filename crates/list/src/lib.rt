// The list beside the bank: its writer, its reader, the lookup by frame number and the summary.
#![tactic(auto)]

// Whether bytes are a list, and one entry of its bytes.
pub mod judging;
// The summary of a list's entries.
pub mod summing;
// A list's entries into memory.
mod reading;
// Entries in memory, and the list that is written of them.
mod writing;

ghost use Rattle.std.specs.Prelude.{◌≡◌};
ghost use Rattle.rules_files.specs.List.{list_left, write_list, read_refusal_of, entries_left, read_list};
ghost use Rattle.rules_files.specs.List.{entry_outcome, list_entry, summary_outcome, list_summary};

use crate::judging::{entry_in, judge_list};
use crate::reading::store_entries;
use crate::summing::sum_entries;
use crate::writing::{entries_legal, put_list};
use rules_files::list::{
    Entry, EntryRefusal, ListFault, ListReadRefusal, ListWriteRefusal, Summary, SummaryRefusal,
};

// The writer takes any arguments. Refusals 2 and 21, in this order.
pub fn write_list(frames: u32, entries: &[u32], list: &mut [u8]) -> Result<(), ListWriteRefusal>
    ensures { list_left result list.new ≡ write_list frames entries.now list.old }
{
    let n = frames as usize;
    if entries.len() < n * 4 {
        return Err(ListWriteRefusal::ShortBuffer);
    }
    if list.len() < 9 + n * 8 {
        return Err(ListWriteRefusal::ShortBuffer);
    }
    if !entries_legal(entries, n) {
        return Err(ListWriteRefusal::BadEntry);
    }
    put_list(frames, entries, list);
    Ok(())
}

// A fault as the reader's refusal, with so many places: where the count is known, 2 comes first.
fn read_refusal(fault: ListFault, places: usize) -> ListReadRefusal
    ensures { result ≡ read_refusal_of fault places }
{
    match fault {
        ListFault::BadMark => ListReadRefusal::BadMark,
        ListFault::BadLength => ListReadRefusal::BadLength,
        ListFault::BadEntry(n) if places / 4 < n => ListReadRefusal::ShortBuffer,
        ListFault::BadEntry(_) => ListReadRefusal::BadEntry,
    }
}

// The reader takes any arguments. Refusals 19, 20, 2 and 21, in this order: 2 stands where the count is known.
pub fn read_list(list: &[u8], entries: &mut [u32]) -> Result<usize, ListReadRefusal>
    ensures { entries_left result entries.new ≡ read_list list.now entries.old }
{
    let places = entries.len();
    let n = judge_list(list).map_err(|fault| read_refusal(fault, places))?;
    if places / 4 < n {
        return Err(ListReadRefusal::ShortBuffer);
    }
    store_entries(list, n, entries);
    Ok(n)
}

// The lookup takes any arguments. Refusals 19, 20, 21 and 31, in this order.
pub fn list_entry(list: &[u8], frame: u32) -> Result<Entry, EntryRefusal>
    ensures { entry_outcome result ≡ list_entry list.now frame }
{
    let n = judge_list(list)?;
    let frame = frame as usize;
    if frame >= n {
        return Err(EntryRefusal::NoFrame);
    }
    Ok(entry_in(list, frame))
}

// The summary takes any bytes. Refusals 19, 20 and 21, in this order.
pub fn list_summary(list: &[u8]) -> Result<Summary, SummaryRefusal>
    ensures { summary_outcome result ≡ list_summary list.now }
{
    let n = judge_list(list)?;
    Ok(sum_entries(list, n))
}
