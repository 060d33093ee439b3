// A list's entries into memory.
ghost use Rattle.std.specs.Prelude.{◌≡◌, ◌+◌, ◌*◌, ◌≤◌, length};
ghost use Rattle.rules.specs.Lent.{overwrite};
ghost use Rattle.rules_files.specs.List.{entry_numbers, frames_in, entries_of};

use crate::judging::entry_in;
use rules_files::list::Entry;

// An entry over four numbers. One by one: an array that is copied over them takes half as long again, by a test of where the two lie.
fn store_entry(entry: Entry, numbers: &mut [u32])
    requires { length numbers.old ≡ 4 }
    ensures { numbers.new ≡ entry_numbers entry }
{
    numbers[0] = entry.level;
    numbers[1] = entry.boundary;
    numbers[2] = entry.pairs;
    numbers[3] = entry.bits;
}

pub(crate) fn store_entries(list: &[u8], n: usize, entries: &mut [u32])
    requires { (n ≡ frames_in list.now) × (9 + n * 8 ≤ length list.now) × (n * 4 ≤ length entries.old) }
    ensures { entries.new ≡ overwrite (entries_of list.now) entries.old }
{
    for i in 0..n {
        let entry = entry_in(list, i);
        let a = i * 4;
        store_entry(entry, &mut entries[a..a + 4]);
    }
}
