// Document 01, **Estimate**, from one boundary to a higher one: only the bands that it passes change their noise, so that the others are not summed again.
ghost use Rattle.std.specs.Prelude.{◌≡◌, ◌+◌, ◌*◌, ◌≤◌, ◌<◌, length};
ghost use Rattle.buffers.specs.Walk.{AtMost};
ghost use Rattle.rules.specs.Layout.{frame_size};
ghost use Rattle.rules.specs.Estimate.{channel_bits, used_bits};
ghost use Rattle.resolutions.specs.Stretched.{IsStretched};
ghost use Rattle.band_counts.specs.Counts.{ChannelCounted};
ghost use Rattle.estimate.specs.Probe.{ProbeFits};

use estimate::{Probe, band_bits};
use layouts::coded_count;
use rules::Layout;

// What the bands that were passed take at the finer noise, and what they took at the level's.
#[derive(Clone, Copy)]
struct Change {
    rise: usize,
    fall: usize,
}

// Of a channel's coded bands.
fn channel_change(
    layout: Layout,
    curve: &[u8; 688],
    scaled: &[f32],
    counts: &[i32],
    factors: &[u8],
    coded: usize,
    level: usize,
    from: usize,
    to: usize,
) -> Change
    requires stretched { IsStretched layout curve.now × ChannelCounted layout.mode scaled.now coded counts.now × AtMost 63 factors.now }
    requires counts_len { (length counts.now ≡ 1024) × (length factors.now ≡ 128) × (coded ≤ 128) }
    requires level_nonzero { (0 < level) × (level ≤ 254) × (from ≤ to) × (to ≤ 128) }
    ensures { (channel_bits layout scaled.now factors.now coded level to + result.fall
        ≡ channel_bits layout scaled.now factors.now coded level from + result.rise) × (result.rise ≤ 12288) × (result.fall ≤ 12288) }
{
    let finer = level - 1;
    let mut rise: usize = 0;
    let mut fall: usize = 0;
    for b in from..to.min(coded) {
        let factor = factors[b];
        rise += band_bits(layout, curve, scaled, counts, b, factor, finer);
        fall += band_bits(layout, curve, scaled, counts, b, factor, level);
    }
    Change { rise, fall }
}

// The bits at a boundary from those at a lower one.
pub fn move_boundary(probe: Probe, level: usize, used: usize, from: usize, to: usize) -> usize
    requires probe_fits { ProbeFits probe }
    requires level_nonzero { (0 < level) × (level ≤ 254) × (from ≤ to) × (to ≤ 128) }
    requires used_value { (used ≡ used_bits probe.layout probe.scaled.now probe.factors.now level from) × (used ≤ 8 * frame_size probe.layout) }
    ensures { result ≡ used_bits probe.entry.layout probe.entry.scaled.now probe.entry.factors.now level to }
{
    let mut rise = used;
    let mut fall: usize = 0;
    for c in 0..probe.layout.channels {
        let coded = coded_count(probe.layout, c);
        let a = c * 1024;
        let f = c * 128;
        let change = channel_change(
            probe.layout,
            probe.curve,
            &probe.scaled[a..a + 1024],
            &probe.counts[a..a + 1024],
            &probe.factors[f..f + 128],
            coded,
            level,
            from,
            to,
        );
        rise += change.rise;
        fall += change.fall;
    }
    rise - fall
}
