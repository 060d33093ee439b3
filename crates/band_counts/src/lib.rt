// Document 01, **Estimate**: a band's bits at all sixteen resolutions, its eight values counted once for each. They stand two to a number in a lent buffer
// of i32: entry b * 8 + k of a channel holds those of band b at resolution k and, eight bits higher, at k + 8.
#![tactic(auto)]

ghost use Rattle.std.specs.Prelude.{◌≡◌, ◌+◌, ◌*◌, ◌≤◌, ◌<◌, pos, nat_abs, length};
ghost use Rattle.buffers.specs.Walk.{build};
ghost use Rattle.rules.specs.Layout.{LegalLayout, spectrum_length};
ghost use Rattle.rules.specs.Scaling.{clip};
ghost use Rattle.band_counts.specs.Counts.{EachWithin, EachSingle, sizes_of, eight_reached, entry_of, channel_counts, Counted, count_in};

use self::eight::{all_within, clip_count, sizes_of, small_count, wide_count};
use self::marked::marked_counts;
use layouts::coded_count;
use rules::{Layout, Mode};

mod eight;
mod marked;
mod tables;

// A resolution's count, of the entry with the count of r - 8 or of r + 8 beside it.
pub fn taken(entry: i32, r: usize) -> usize
    requires { (entry ≡ pos (nat_abs entry)) × (r ≤ 15) }
    ensures { result ≡ count_in entry r }
{
    ((entry as u32 >> (r / 8 * 8)) % 256) as usize
}

// One entry, of eight values, their magnitudes, and how many of them are at the clip.
fn entry(mode: Mode, e: [f32; 8], m: [f32; 8], clips: u32, k: usize) -> i32
    requires each_within { EachWithin e × EachSingle e × (m ≡ sizes_of e) × (clips ≡ eight_reached clip e) }
    requires k_bound { k < 8 }
    ensures { result ≡ entry_of mode e k }
{
    let small = small_count(mode, e, clips, k);
    let wide = wide_count(mode, e, m, k);
    (small + 256 * wide) as i32
}

// The entries of a band within the clip: the loop goes over resolutions, and four of them are counted side by side.
fn zone_counts(mode: Mode, e: [f32; 8], counts: &mut [i32])
    requires each_within { EachWithin e }
    requires counts_len { length counts.old ≡ 8 }
    ensures { counts.new ≡ build (entry_of mode e) 8 }
{
    let m = sizes_of(e);
    let clips = clip_count(e);
    for k in 0..8 {
        counts[k] = entry(mode, e, m, clips, k);
    }
}

// A band's eight entries. What the stage counts is within the clip.
fn band_counts(mode: Mode, e: [f32; 8], counts: &mut [i32])
    requires { length counts.old ≡ 8 }
    ensures { counts.new ≡ build (entry_of mode e) 8 }
{
    if all_within(e) {
        zone_counts(mode, e, counts);
        return;
    }
    marked_counts(mode, e, counts);
}

// Of a channel's coded bands.
pub fn channel_counts(mode: Mode, scaled: &[f32], coded: usize, counts: &mut [i32])
    requires { (length scaled.now ≡ 1024) × (coded ≤ 128) × (length counts.old ≡ 1024) }
    ensures { counts.new ≡ channel_counts mode scaled.now coded counts.old }
{
    let (eights, _) = scaled.as_chunks::<8>();
    for b in 0..coded {
        let at = b * 8;
        band_counts(mode, eights[b], &mut counts[at..at + 8]);
    }
}

// Of every channel.
pub fn frame_counts(layout: Layout, scaled: &[f32], counts: &mut [i32])
    requires legal_layout { LegalLayout layout }
    requires scaled_len { (length scaled.now ≡ spectrum_length layout) × (length counts.old ≡ spectrum_length layout) }
    ensures { Counted layout scaled.now counts.new }
{
    for c in 0..layout.channels {
        let a = c * 1024;
        let coded = coded_count(layout, c);
        channel_counts(
            layout.mode,
            &scaled[a..a + 1024],
            coded,
            &mut counts[a..a + 1024],
        );
    }
}
