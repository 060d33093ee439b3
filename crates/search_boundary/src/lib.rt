// Document 01, **Boundary**: the Rust's search over 0..127 at a level.
#![tactic(auto)]

// The bits at a boundary from those at a lower one.
pub mod moves;

ghost use Rattle.std.specs.Prelude.{◌≡◌, ◌*◌, ◌≤◌, ◌<◌, length};
ghost use Rattle.buffers.specs.Walk.{AtMost};
ghost use Rattle.rules.specs.Layout.{LegalLayout, frame_size, spectrum_length, factor_length};
ghost use Rattle.rules.specs.Estimate.{used_bits, exceeds};
ghost use Rattle.rules.specs.Boundary.{last_of, search_boundary, boundary_of};
ghost use Rattle.resolutions.specs.Stretched.{IsStretched};
ghost use Rattle.band_counts.specs.Counts.{Counted};
ghost use Rattle.estimate.specs.Probe.{ProbeFits};

use crate::moves::move_boundary;
use estimate::Probe;
use rules::Layout;

// Where the search stops: one is left, or the higher of two is probed.
#[tactic(auto, using(crate::proofs::Last::lower_decides, crate::proofs::Last::higher_decides))]
fn higher_or_lower(probe: Probe, level: usize, used: usize, low: usize, high: usize) -> usize
    requires probe_fits { ProbeFits probe }
    requires level_nonzero { (0 < level) × (level ≤ 254) × (low ≤ high) × (high ≤ 127) }
    requires used_value { (used ≡ used_bits probe.layout probe.scaled.now probe.factors.now level low) × (used ≤ 8 * frame_size probe.layout) }
    ensures { (result ≡ last_of (exceeds probe.entry.layout probe.entry.scaled.now probe.entry.factors.now level) low high) × (result ≤ 127) }
{
    if low == high {
        return low;
    }
    let probed = move_boundary(probe, level, used, low, high);
    if 8 * probe.layout.frame_size < probed {
        return low;
    }
    high
}

// It always answers: low moves only to a probe below high. The bits of low are at hand, and a probe's are counted from them.
fn binary_search_boundary(probe: Probe, level: usize, used: usize) -> usize
    requires probe_fits { ProbeFits probe × (0 < level) × (level ≤ 254) }
    requires used_value { (used ≡ used_bits probe.layout probe.scaled.now probe.factors.now level 0) × (used ≤ 8 * frame_size probe.layout) }
    ensures { (result ≡ search_boundary (exceeds probe.entry.layout probe.entry.scaled.now probe.entry.factors.now level)) × (result ≤ 127) }
{
    let available = 8 * probe.layout.frame_size;
    let mut bits = used;
    let mut low: usize = 0;
    let mut high: usize = 127;
    while low + 1 < high {
        let mid = (low + high) / 2;
        let probed = move_boundary(probe, level, bits, low, mid);
        if available < probed {
            high = mid - 1;
        } else {
            low = mid;
            bits = probed;
        }
    }
    higher_or_lower(probe, level, bits, low, high)
}

// 0 at level 0, with no probe. The level search has counted the bits of boundary 0.
pub fn calculate_evaluation_boundary(
    layout: Layout,
    curve: &[u8; 688],
    scaled: &[f32],
    counts: &[i32],
    factors: &[u8],
    level: usize,
    used: usize,
) -> usize
    requires legal_layout { LegalLayout layout }
    requires stretched { IsStretched layout curve.now × Counted layout scaled.now counts.now × AtMost 63 factors.now }
    requires scaled_len { (length scaled.now ≡ spectrum_length layout) × (length factors.now ≡ factor_length layout) × (level ≤ 254) }
    requires used_value { (used ≡ used_bits layout scaled.now factors.now level 0) × (used ≤ 8 * frame_size layout) }
    ensures { (result ≡ boundary_of level (exceeds layout scaled.now factors.now level)) × (result ≤ 127) }
{
    if level == 0 {
        return 0;
    }
    let probe = Probe {
        layout,
        curve,
        scaled,
        counts,
        factors,
    };
    binary_search_boundary(probe, level, used)
}
