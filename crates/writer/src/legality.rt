// Document 01, **Legal record**: is a record that lies in lent buffers legal?
ghost use Rattle.std.specs.Prelude.{◌≡◌, true, ◌+◌, ◌*◌, ◌^◌, ◌≤◌, ◌<◌, length};
ghost use Rattle.rules.specs.Layout.{LegalLayout, kind_at, side_width, part};
ghost use Rattle.rules.specs.Resolution.{all_resolutions};
ghost use Rattle.rules.specs.Record.{legal_subframe, legal_codes, legal_channel, legal_channels, legal_record};

use crate::values::{legal_code, legal_head, legal_row};
use layouts::{coded_count, is_secondary, side_count};
use resolutions::calculate_frame_resolutions;
use rules::Layout;

// The c-th part of a buffer in parts of n: a channel's, or a subframe's.
fn part_of<T>(xs: &[T], n: usize, c: usize) -> &[T]
    requires { (c < 16) × (n ≤ 1024) × (c * n + n ≤ length xs.now) }
    ensures { (result.now ≡ part n xs.now c) × (length result.now ≡ n) }
{
    let from = c * n;
    &xs[from..from + n]
}

// One subframe of a channel: its codes lie in the ranges of their bands' resolutions.
fn legal_subframe(resolutions: &[u8], codes: &[i32]) -> bool
    requires { (length resolutions.now ≡ 128) × (length codes.now ≡ 128) }
    ensures { result ≡ legal_subframe resolutions.now codes.now }
{
    for b in 0..128 {
        if !legal_code(codes[b], resolutions[b]) {
            return false;
        }
    }
    true
}

// The eight subframes of a channel.
fn legal_codes(resolutions: &[u8], codes: &[i32]) -> bool
    requires { (length resolutions.now ≡ 128) × (length codes.now ≡ 1024) }
    ensures { result ≡ legal_codes resolutions.now codes.now }
{
    let (subframes, _) = codes.as_chunks::<128>();
    for subframe in subframes {
        if !legal_subframe(resolutions, subframe) {
            return false;
        }
    }
    true
}

// Above a secondary's intensities, else above the HFR scales.
fn side_limit(layout: Layout, channel: usize) -> u8
    requires { channel < 16 }
    ensures { result ≡ 2 ^ side_width (kind_at layout channel) }
{
    if is_secondary(layout, channel) {
        16
    } else {
        64
    }
}

fn legal_channel(
    layout: Layout,
    channel: usize,
    factors: &[u8],
    side: &[u8],
    codes: &[i32],
    resolutions: &[u8],
) -> bool
    requires legal_layout { LegalLayout layout }
    requires channel_bound { (channel < 16) × (length factors.now ≡ 128) × (length side.now ≡ 8) × (length codes.now ≡ 1024) × (length resolutions.now ≡ 128) }
    ensures { result ≡ legal_channel layout channel factors.now side.now codes.now resolutions.now }
{
    let coded = coded_count(layout, channel);
    let sides = side_count(layout, channel);
    let limit = side_limit(layout, channel);
    legal_row(factors, coded, 64)
        && legal_row(side, sides, limit)
        && legal_codes(resolutions, codes)
}

fn legal_channels(
    layout: Layout,
    factors: &[u8],
    side: &[u8],
    codes: &[i32],
    resolutions: &[u8],
) -> bool
    requires legal_layout { LegalLayout layout }
    requires factors_len { (length factors.now ≡ layout.channels * 128) × (length side.now ≡ layout.channels * 8)
        × (length codes.now ≡ layout.channels * 1024) × (length resolutions.now ≡ layout.channels * 128) }
    ensures { result ≡ legal_channels layout factors.now side.now codes.now resolutions.now }
{
    for c in 0..layout.channels {
        let row = part_of(factors, 128, c);
        let sides = part_of(side, 8, c);
        let rows = part_of(codes, 1024, c);
        let ranges = part_of(resolutions, 128, c);
        if !legal_channel(layout, c, row, sides, rows, ranges) {
            return false;
        }
    }
    true
}

// Is the record legal? Leaves the resolutions of its bands, which the packer needs too.
pub fn is_legal(
    layout: Layout,
    level: usize,
    boundary: usize,
    factors: &[u8],
    side: &[u8],
    codes: &[i32],
    resolutions: &mut [u8],
) -> bool
    requires legal_layout { LegalLayout layout }
    requires factors_len { (length factors.now ≡ layout.channels * 128) × (length side.now ≡ layout.channels * 8)
        × (length codes.now ≡ layout.channels * 1024) × (length resolutions.old ≡ layout.channels * 128) }
    ensures { (result ≡ legal_record layout level boundary factors.now side.now codes.now)
        × (result ≡ true → resolutions.new ≡ all_resolutions layout level boundary factors.now) }
{
    if legal_head(level, boundary) {
        calculate_frame_resolutions(layout, level, boundary, factors, resolutions);
        return legal_channels(layout, factors, side, codes, resolutions);
    }
    false
}
