// The strict reader's codes, from the part of a frame between its sync and its check.
#![tactic(auto)]

// A code from the numbers that its bits make.
pub mod lookup;
// One code, read.
pub mod one_code;

ghost use Rattle.std.specs.Prelude.{◌≡◌, ◌*◌, ◌≤◌, ◌<◌, length, take};
ghost use Rattle.bits.specs.Place.{left_at};
ghost use Rattle.buffers.specs.Walk.{AtMost};
ghost use Rattle.rules.specs.Format.{each};
ghost use Rattle.rules.specs.Layout.{LegalLayout, spectrum_length, factor_length};
ghost use Rattle.rules.specs.Reading.{read_code};
ghost use Rattle.reader_codes.specs.Rows.{read_subframe, read_subframes, StoredCodes, Subframe, Subframes};

use crate::one_code::read_code;
use bits::Place;
use layouts::coded_count;
use reader_channels::values::faults::Fault;
use rules::Layout;

// One subframe of one channel: the codes of its coded bands, and zeros behind them.
fn read_band_codes(
    part: &[u8],
    place: Place,
    resolutions: &[u8],
    coded: usize,
    codes: &mut [i32],
) -> Result<Place, Fault>
    requires part_len_bound { (length part.now ≤ 65535) × (place.at ≤ 8 * length part.now) }
    requires coded_bound { (coded ≤ 128) × (length resolutions.now ≡ 128) × (length codes.old ≡ 128) × AtMost 15 resolutions.now }
    ensures { StoredCodes part.now
        (each read_code (take coded resolutions.now) (left_at part.now place.at))
        coded codes.new result }
{
    let mut at = place;
    for (band, slot) in codes[..coded].iter_mut().enumerate() {
        let (code, next) = read_code(part, at, resolutions[band])?;
        *slot = code;
        at = next;
    }
    codes[coded..].fill(0);
    Ok(at)
}

// One subframe of every channel, each into its row of the channel's codes.
fn read_subframe(
    layout: Layout,
    subframe: usize,
    part: &[u8],
    place: Place,
    resolutions: &[u8],
    codes: &mut [i32],
) -> Result<Place, Fault>
    requires legal_layout { LegalLayout layout }
    requires subframe_bound { (subframe < 8) × (length part.now ≤ 65535) × (place.at ≤ 8 * length part.now) }
    requires resolutions_len { (length resolutions.now ≡ factor_length layout) × (length codes.old ≡ spectrum_length layout)
        × AtMost 15 resolutions.now }
    ensures { Subframe layout part.now
        (read_subframe layout resolutions.now (left_at part.now place.at))
        subframe codes.old codes.new result }
{
    let mut at = place;
    for c in 0..layout.channels {
        let coded = coded_count(layout, c);
        let from = c * 128;
        let to = (c * 8 + subframe) * 128;
        at = read_band_codes(
            part,
            at,
            &resolutions[from..from + 128],
            coded,
            &mut codes[to..to + 128],
        )?;
    }
    Ok(at)
}

// The codes of a frame: subframe by subframe, channel by channel.
pub fn read_all_codes(
    layout: Layout,
    part: &[u8],
    place: Place,
    resolutions: &[u8],
    codes: &mut [i32],
) -> Result<Place, Fault>
    requires legal_layout { LegalLayout layout }
    requires part_len_bound { (length part.now ≤ 65535) × (place.at ≤ 8 * length part.now) }
    requires resolutions_len { (length resolutions.now ≡ factor_length layout) × (length codes.old ≡ spectrum_length layout)
        × AtMost 15 resolutions.now }
    ensures { Subframes layout part.now
        (read_subframes layout resolutions.now (left_at part.now place.at))
        codes.new result }
{
    let mut at = place;
    for subframe in 0..8 {
        at = read_subframe(layout, subframe, part, at, resolutions, codes)?;
    }
    Ok(at)
}
