// Document 01, **Level**: the halving, and the removal of pairs of bands while there is no level.
#![tactic(auto)]

ghost use Rattle.std.specs.Prelude.{◌≡◌, ◌+◌, ◌*◌, ◌≤◌, ◌<◌, length, IfSome, IsNone, IfOk, IfErr};
ghost use Rattle.buffers.specs.Walk.{AtMost};
ghost use Rattle.rules.specs.Layout.{LegalLayout, frame_size, spectrum_length, factor_length};
ghost use Rattle.rules.specs.Estimate.{exceeds, used_bits};
ghost use Rattle.rules.specs.Level.{level_of, clear_two, clear_pair};
ghost use Rattle.rules.specs.Stage.{level_found};
ghost use Rattle.rules.specs.declared.StageRefusal.TheVariants as refusal;
ghost use Rattle.resolutions.specs.Stretched.{IsStretched, Placed};
ghost use Rattle.band_counts.specs.Counts.{Counted};
ghost use Rattle.estimate.specs.Probe.{ProbeFits};
ghost use Rattle.search_level.specs.Found.{FitsAt};

use estimate::fixed_part::calculate_frame_header_length;
use estimate::{Probe, calculate_used_bits};
use resolutions::noise_curve::fill_places;
use rules::{Layout, StageRefusal};

// A level that fits, and the bits that the estimate has at it.
#[derive(Clone, Copy)]
struct Found {
    level: usize,
    used: usize,
}

// A probe that does not exceed is the highest left, and kept. None is kept where each exceeds.
fn halve_levels(probe: Probe, places: &[u16]) -> Option<Found>
    requires probe_fits { ProbeFits probe }
    requires places_len { (length places.now ≡ factor_length probe.layout) × Placed (factor_length probe.layout) probe.factors.now places.now }
    ensures some { IfSome result (λ f. FitsAt probe.entry.layout probe.entry.scaled.now probe.entry.factors.now f) }
    ensures none { IsNone result → level_of (λ level. exceeds probe.entry.layout probe.entry.scaled.now probe.entry.factors.now level 0) ≡ 255 }
{
    let available = 8 * probe.layout.frame_size;
    let fixed = calculate_frame_header_length(probe.layout, probe.factors);
    let mut low: usize = 0;
    let mut high: usize = 255;
    let mut found = None;
    while low < high {
        let mid = (low + high) / 2;
        let bits = calculate_used_bits(probe, places, fixed, mid);
        if available < bits {
            low = mid + 1;
        } else {
            high = mid;
            found = Some(Found {
                level: mid,
                used: bits,
            });
        }
    }
    found
}

// The places of the factors are worked out once, for all probes.
fn halve_with_places(probe: Probe, places: &mut [u16]) -> Option<Found>
    requires probe_fits { ProbeFits probe }
    requires places_len { length places.old ≡ factor_length probe.layout }
    ensures some { IfSome result (λ f. FitsAt probe.entry.layout probe.entry.scaled.now probe.entry.factors.now f) }
    ensures none { IsNone result → level_of (λ level. exceeds probe.entry.layout probe.entry.scaled.now probe.entry.factors.now level 0) ≡ 255 }
{
    fill_places(probe.factors, places);
    halve_levels(probe, places)
}

// Room for the places of sixteen channels, of which the layout's are lent; for up to two, as in speech, a small one, since a room is cleared first.
fn binary_search_level(probe: Probe) -> Option<Found>
    requires probe_fits { ProbeFits probe }
    ensures some { IfSome result (λ f. FitsAt probe.entry.layout probe.entry.scaled.now probe.entry.factors.now f) }
    ensures none { IsNone result → level_of (λ level. exceeds probe.entry.layout probe.entry.scaled.now probe.entry.factors.now level 0) ≡ 255 }
{
    let n = probe.layout.channels * 128;
    if probe.layout.channels < 3 {
        let mut few = [0u16; 256];
        return halve_with_places(probe, &mut few[..n]);
    }
    let mut places = [0u16; 2048];
    halve_with_places(probe, &mut places[..n])
}

fn clear_two(factors: &mut [u8], band: usize)
    requires { (length factors.old ≡ 128) × (band + 1 < 128) }
    ensures { factors.new ≡ clear_two factors.old band }
{
    factors[band] = 0;
    factors[band + 1] = 0;
}

// Two bands get factor 0 in every channel.
fn clear_pair(layout: Layout, factors: &mut [u8], band: usize)
    requires legal_layout { LegalLayout layout }
    requires factors_len { (length factors.old ≡ factor_length layout) × (band + 1 < 128) }
    ensures { factors.new ≡ clear_pair layout factors.old band }
{
    for c in 0..layout.channels {
        let f = c * 128;
        clear_two(&mut factors[f..f + 128], band);
    }
}

// The level, the pairs removed, and the bits that the estimate has at the level.
#[derive(Clone, Copy)]
pub struct Removal {
    pub level: usize,
    pub pairs: usize,
    pub used: usize,
}

// No level fits, though all that may be removed was: so many pairs.
#[derive(Clone, Copy, Debug, PartialEq, Eq)]
pub struct NoLevel {
    pub pairs: usize,
}

// **Refusal 5**, beside it the pairs removed.
impl From<NoLevel> for StageRefusal {
    ghost from_gives = { λ none result. result ≡ refusal.NoLevel none.pairs };

    fn from(none: NoLevel) -> StageRefusal {
        StageRefusal::NoLevel(none.pairs)
    }
}

// `top` is one above the highest band. The lowest one or two bands are never cleared.
pub fn calculate_noise_level(
    layout: Layout,
    curve: &[u8; 688],
    scaled: &[f32],
    counts: &[i32],
    factors: &mut [u8],
) -> Result<Removal, NoLevel>
    requires legal_layout { LegalLayout layout }
    requires stretched { IsStretched layout curve.now × Counted layout scaled.now counts.now × AtMost 63 factors.old }
    requires scaled_len { (length scaled.now ≡ spectrum_length layout) × (length factors.old ≡ factor_length layout) }
    ensures ok { IfOk result (λ r. (r.level ≡ (level_found layout scaled.now factors.old).level) × (r.level ≤ 254)
        × (r.pairs ≡ (level_found layout scaled.now factors.old).pairs)
        × (r.used ≡ used_bits layout scaled.now factors.new r.level 0) × (r.used ≤ 8 * frame_size layout)) }
    ensures err { IfErr result (λ e. ((level_found layout scaled.now factors.old).level ≡ 255)
        × (e.pairs ≡ (level_found layout scaled.now factors.old).pairs)) }
    ensures factors_left { (factors.new ≡ (level_found layout scaled.now factors.old).factors) × AtMost 63 factors.new }
{
    let mut top = layout.base + layout.stereo;
    let mut pairs: usize = 0;
    loop {
        let probe = Probe {
            layout,
            curve,
            scaled,
            counts,
            factors,
        };
        if let Some(found) = binary_search_level(probe) {
            return Ok(Removal {
                level: found.level,
                pairs,
                used: found.used,
            });
        }
        if top < 3 {
            return Err(NoLevel { pairs });
        }
        top -= 2;
        clear_pair(layout, factors, top);
        pairs += 1;
    }
}
