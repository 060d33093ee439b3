// A layout from two slices: its five to eight numbers, and a kind for each channel.
#![tactic(auto)]

ghost use Rattle.std.specs.Prelude.{◌≡◌, ◌≤◌, length, get_or};
ghost use Rattle.buffers.specs.Walk.{build};
ghost use Rattle.hca_layout.specs.Layouts.{kind_of, channel_at, mode_of, layout_of, has_kinds, is_layout};

use rules::{Channel, ChannelType, Layout, Mode};

fn kind_of(k: u8) -> ChannelType
    ensures { result ≡ kind_of k }
{
    match k {
        2 => ChannelType::StereoSecondary,
        1 => ChannelType::StereoPrimary,
        _ => ChannelType::Discrete,
    }
}

// Past the lent kinds: Discrete.
fn channels_of(kinds: &[u8]) -> [Channel; 16]
    ensures { result ≡ build (channel_at kinds.now) 16 }
{
    let mut out = [Channel {
        kind: ChannelType::Discrete,
    }; 16];
    for (i, channel) in out.iter_mut().enumerate() {
        *channel = Channel {
            kind: kind_of(kinds.get(i).copied().unwrap_or(0)),
        };
    }
    out
}

pub fn wide(n: u32) -> usize
    ensures { result ≡ n }
{
    n as usize
}

// A number past the lent ones has its default.
fn number_or(layout: &[u32], i: usize, default: u32) -> usize
    ensures { result ≡ get_or layout.now i default }
{
    layout.get(i).copied().unwrap_or(default) as usize
}

fn mode_of(n: usize) -> Mode
    ensures { result ≡ mode_of n }
{
    match n {
        1 => Mode::Held,
        _ => Mode::Rust,
    }
}

// A kind of 0 to 2 for each of n channels?
fn has_kinds(kinds: &[u8], n: usize) -> bool
    ensures { result ≡ has_kinds kinds.now n }
{
    n <= kinds.len() && kinds[..n].iter().all(|&k| k <= 2)
}

// Five numbers, a mode of 0 or 1, a kind of 0 to 2 for each channel, and a layout within its limits?
pub fn is_layout(layout: &[u32], kinds: &[u8]) -> bool
    ensures { result ≡ is_layout layout.now kinds.now }
{
    5 <= layout.len()
        && number_or(layout, 7, 0) <= 1
        && has_kinds(kinds, number_or(layout, 0, 0))
        && layouts::legal(layout_of(layout, kinds))
}

pub fn layout_of(layout: &[u32], kinds: &[u8]) -> Layout
    requires { 5 ≤ length layout.now }
    ensures { result ≡ layout_of layout.now kinds.now }
{
    Layout {
        channels: number_or(layout, 0, 0),
        kinds: channels_of(kinds),
        base: number_or(layout, 1, 0),
        stereo: number_or(layout, 2, 0),
        total: number_or(layout, 3, 0),
        frame_size: number_or(layout, 4, 0),
        minimum: number_or(layout, 5, 1),
        maximum: number_or(layout, 6, 15),
        mode: mode_of(number_or(layout, 7, 0)),
    }
}
