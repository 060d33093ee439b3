// What a layout says: whether it is legal and has room, its coded counts, its HFR groups and its side values.
#![tactic(auto)]

ghost use Rattle.std.specs.Prelude.{◌≡◌, true, false, ◌+◌, ◌-◌, ◌≤◌, ◌<◌};
ghost use Rattle.rules.specs.Layout.{legal_pair, legal_layout, LegalLayout, secondary_at, coded_count_at, start_band};
ghost use Rattle.rules.specs.Layout.{bands_per_group, group_count, kind_at, side_count_at, side_width, has_room};

use rules::{ChannelType, Layout, Room};

// 1 to 15, the lowest resolution not above the highest?
fn legal_pair(minimum: usize, maximum: usize) -> bool
    ensures { result ≡ legal_pair minimum maximum }
{
    1 <= minimum && minimum <= maximum && maximum <= 15
}

// Is the layout within its limits?
pub fn legal(layout: Layout) -> bool
    ensures { result ≡ legal_layout layout }
{
    1 <= layout.channels
        && layout.channels <= 16
        && 1 <= layout.total
        && layout.total <= 128
        && layout.base <= layout.total
        && layout.stereo <= layout.total - layout.base
        && 8 <= layout.frame_size
        && layout.frame_size <= 65535
        && legal_pair(layout.minimum, layout.maximum)
}

pub fn is_secondary(layout: Layout, channel: usize) -> bool
    requires { channel < 16 }
    ensures { result ≡ secondary_at layout channel }
{
    matches!(layout.kinds[channel].kind, ChannelType::StereoSecondary)
}

// Is each buffer as long as document 01 asks?
pub fn has_room(layout: Layout, room: Room) -> bool
    requires { LegalLayout layout }
    ensures { result ≡ has_room layout room }
{
    layout.channels * 128 <= room.factors
        && layout.channels * 8 <= room.side
        && layout.channels * 1024 <= room.codes
        && layout.frame_size <= room.frame
}

// Start N.
pub fn start(layout: Layout) -> usize
    requires { LegalLayout layout }
    ensures { (result ≡ start_band layout) × (result ≤ layout.total) }
{
    layout.base + layout.stereo
}

pub fn coded_count(layout: Layout, channel: usize) -> usize
    requires legal_layout { LegalLayout layout }
    requires channel_bound { channel < 16 }
    ensures { (result ≡ coded_count_at layout channel) × (result ≤ layout.total) }
{
    if is_secondary(layout, channel) {
        layout.base
    } else {
        start(layout)
    }
}

// g, 0 where there are no HFR bands.
pub fn bands_per_group(layout: Layout) -> usize
    requires { LegalLayout layout }
    ensures { (result ≡ bands_per_group layout) × (result ≤ 16) }
{
    (layout.total - start(layout)).div_ceil(8)
}

// G.
pub fn groups(layout: Layout) -> usize
    requires { LegalLayout layout }
    ensures { (result ≡ group_count layout) × (result ≤ 8) }
{
    let g = bands_per_group(layout);
    if g == 0 {
        0
    } else {
        (layout.total - start(layout)).div_ceil(g)
    }
}

// How many side values a channel has.
pub fn side_count(layout: Layout, channel: usize) -> usize
    requires legal_layout { LegalLayout layout }
    requires channel_bound { channel < 16 }
    ensures { (result ≡ side_count_at layout channel) × (result ≤ 8) }
{
    if is_secondary(layout, channel) {
        8
    } else {
        groups(layout)
    }
}

// The bits of a side value: an intensity has 4, an HFR scale 6.
pub fn side_width(layout: Layout, channel: usize) -> u32
    requires { channel < 16 }
    ensures { (result ≡ side_width (kind_at layout channel)) × (result ≤ 6) }
{
    if is_secondary(layout, channel) { 4 } else { 6 }
}
