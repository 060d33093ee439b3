// A band with a value past the clip, or none at all: counted by the quantizer's marks. No call of the stage comes here.
ghost use Rattle.std.specs.Prelude.{◌≡◌, ◌≤◌, ◌<◌, length, get_or};
ghost use Rattle.std.specs.Float.{nan};
ghost use Rattle.buffers.specs.Walk.{build};
ghost use Rattle.rules.specs.Tables.{dead_zone_table};
ghost use Rattle.rules.specs.Code.{magnitude_bits};
ghost use Rattle.quantizer.specs.Marks.{marks_at};
ghost use Rattle.band_counts.specs.Counts.{eight_bits, entry_of};

use quantizer::counts::{Marks, marks_of, small_bits, wide_bits};
use quantizer::tables::{dead_zone, magnitude_bits};
use rules::Mode;

fn marked_small(mode: Mode, e: [f32; 8], r: u8, m: Marks) -> u32
    requires { (r < 8) × (m ≡ marks_at mode r) }
    ensures { (result ≡ eight_bits mode r e) × (result ≤ 96) }
{
    let mut count = 0;
    for i in 0..8 {
        count += small_bits(mode, e[i], r, m);
    }
    count
}

fn marked_wide(mode: Mode, e: [f32; 8], r: u8, bits: u32, dead: f32) -> u32
    requires { (8 ≤ r) × (r ≤ 15) × (bits ≡ magnitude_bits r) × (dead ≡ get_or dead_zone_table r nan) }
    ensures { (result ≡ eight_bits mode r e) × (result ≤ 96) }
{
    let mut count = 0;
    for i in 0..8 {
        count += wide_bits(mode, e[i], r, bits, dead);
    }
    count
}

fn marked_entry(mode: Mode, e: [f32; 8], k: u8) -> i32
    requires { k < 8 }
    ensures { result ≡ entry_of mode e k }
{
    let r = k + 8;
    let small = marked_small(mode, e, k, marks_of(mode, k));
    let wide = marked_wide(mode, e, r, magnitude_bits(r), dead_zone(r));
    (small + 256 * wide) as i32
}

pub(crate) fn marked_counts(mode: Mode, e: [f32; 8], counts: &mut [i32])
    requires { length counts.old ≡ 8 }
    ensures { counts.new ≡ build (entry_of mode e) 8 }
{
    for k in 0..8 {
        counts[k] = marked_entry(mode, e, k as u8);
    }
}
