// The summary of a list's entries: the highest level, the most pairs and the total of bits.
ghost use Rattle.std.specs.Prelude.{◌≡◌, ◌+◌, ◌*◌, ◌<◌, ◌≤◌, length};
ghost use Rattle.rules_files.specs.List.{frames_in, entries_of, summary_of};

use crate::judging::entry_in;
use rules_files::list::Summary;

pub fn sum_entries(list: &[u8], n: usize) -> Summary
    requires { (n ≡ frames_in list.now) × (9 + n * 8 ≤ length list.now) × (n < 4294967296) }
    ensures { result ≡ summary_of n (entries_of list.now) }
{
    let mut level: u64 = 0;
    let mut pairs: u64 = 0;
    let mut bits: u64 = 0;
    // 2^32 - 1 frames of as many bits never pass 64 bits
    for i in 0..n {
        let entry = entry_in(list, i);
        level = level.max(u64::from(entry.level));
        pairs = pairs.max(u64::from(entry.pairs));
        bits += u64::from(entry.bits);
    }
    Summary { level, pairs, bits }
}
