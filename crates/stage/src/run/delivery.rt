// From prepared buffers of exactly document 01's lengths to the answer: level, boundary, codes and frame.
ghost use Rattle.std.specs.Prelude.{◌≡◌, ◌*◌, ◌≤◌, length};
ghost use Rattle.buffers.specs.Walk.{AtMost};
ghost use Rattle.rules.specs.Layout.{LegalLayout, frame_size, spectrum_length, factor_length, side_length};
ghost use Rattle.rules.specs.Estimate.{used_bits};
ghost use Rattle.rules.specs.Stage.{level_found, stage_left, analysis_from, after_packing, after_level};
ghost use Rattle.resolutions.specs.Stretched.{IsStretched};
ghost use Rattle.band_counts.specs.Counts.{Counted};
ghost use Rattle.within.specs.Within.{AllWithin};
ghost use Rattle.stage.specs.Delivery.{ExactBuffers, Delivers, found_as, wiped};

use band_counts::frame_counts;
use codes::quantize_spectra;
use packing::pack_frame;
use resolutions::noise_curve::curve_table;
use resolutions::{RESOLUTION_ROOM, calculate_frame_resolutions};
use rules::{Delivery, Layout, StageRefusal};
use search_boundary::calculate_evaluation_boundary;
use search_level::calculate_noise_level;

// Codes and frame. Resolutions are worked out once, for the quantiser and the packer: there is room for those of sixteen channels, of which the layout's
// are lent. Answers how many bits the fields are.
fn codes_and_frame(
    layout: Layout,
    level: usize,
    boundary: usize,
    scaled: &[f32],
    factors: &[u8],
    side: &[u8],
    codes: &mut [i32],
    frame: &mut [u8],
) -> usize
    requires legal_layout { LegalLayout layout }
    requires level_bound { (level ≤ 511) × (boundary ≤ 127) }
    requires scaled_len { (length scaled.now ≡ spectrum_length layout) × (length factors.now ≡ factor_length layout) × (length side.now ≡ side_length layout) }
    requires codes_len { (length codes.old ≡ spectrum_length layout) × (length frame.old ≡ frame_size layout) × AllWithin scaled.now }
    ensures { Delivers layout level boundary scaled.now factors.now side.now result codes.new
        frame.new }
{
    let mut room = [0u8; RESOLUTION_ROOM];
    let resolutions = &mut room[..layout.channels * 128];
    calculate_frame_resolutions(layout, level, boundary, factors, resolutions);
    quantize_spectra(layout, resolutions, scaled, codes);
    pack_frame(
        layout,
        level,
        boundary,
        factors,
        side,
        codes,
        resolutions,
        frame,
    )
}

// The boundary, the codes and the frame of a level. The counts stand where the codes will. Fields that pass the payload's end are **refusal 7**,
// beside it their length.
fn boundary_to_frame(
    layout: Layout,
    level: usize,
    pairs: usize,
    used: usize,
    curve: &[u8; 688],
    scaled: &[f32],
    codes: &mut [i32],
    factors: &[u8],
    side: &[u8],
    frame: &mut [u8],
) -> Result<Delivery, StageRefusal>
    requires legal_layout { LegalLayout layout }
    requires stretched { IsStretched layout curve.now × Counted layout scaled.now codes.old × AtMost 63 factors.now }
    requires level_bound { (level ≤ 254) × AllWithin scaled.now }
    requires used_value { (used ≡ used_bits layout scaled.now factors.now level 0) × (used ≤ 8 * frame_size layout) }
    requires exact_buffers { ExactBuffers layout (length scaled.now) (length codes.old) (length factors.now) (length side.now) (length frame.old) }
    ensures { wiped layout (stage_left result scaled.now codes.new factors.now side.now
        frame.new) ≡ after_packing layout (analysis_from layout scaled.now side.now (found_as level pairs factors.now)) }
{
    let boundary = calculate_evaluation_boundary(
        layout, curve, scaled, codes, factors, level, used,
    );
    let written = codes_and_frame(layout, level, boundary, scaled, factors, side, codes, frame);
    if 8 * (layout.frame_size - 2) < written {
        return Err(StageRefusal::TooLong(written));
    }
    Ok(Delivery {
        level,
        boundary,
        pairs,
        bits: written,
    })
}

// From prepared buffers on: all bands are counted once, in the buffer that the codes overwrite. No level is **refusal 5**,
// beside it the pairs removed. What a refusal leaves is cleared later.
pub(crate) fn level_to_frame(
    layout: Layout,
    scaled: &[f32],
    codes: &mut [i32],
    factors: &mut [u8],
    side: &[u8],
    frame: &mut [u8],
) -> Result<Delivery, StageRefusal>
    requires legal_layout { LegalLayout layout }
    requires at_most { AtMost 63 factors.old × AllWithin scaled.now }
    requires exact_buffers { ExactBuffers layout (length scaled.now) (length codes.old) (length factors.old) (length side.now) (length frame.old) }
    ensures { wiped layout (stage_left result scaled.now codes.new factors.new side.now
        frame.new) ≡ after_level layout (analysis_from layout scaled.now side.now
        (level_found layout scaled.now factors.old)) }
{
    frame_counts(layout, scaled, codes);
    let curve = curve_table(layout);
    let found = calculate_noise_level(layout, &curve, scaled, codes, factors)?;
    boundary_to_frame(
        layout,
        found.level,
        found.pairs,
        found.used,
        &curve,
        scaled,
        codes,
        factors,
        side,
        frame,
    )
}
