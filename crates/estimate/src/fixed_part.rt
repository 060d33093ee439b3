// Document 01, **Estimate**: the part that no level or boundary changes.
ghost use Rattle.std.specs.Prelude.{◌≡◌, ◌*◌, ◌≤◌, ◌<◌, length};
ghost use Rattle.rules.specs.Layout.{LegalLayout, side_count_at, kind_at, side_width, factor_length};
ghost use Rattle.rules.specs.Estimate.{header_bits, fixed_bits};

use layouts::coded_count;
use rules::Layout;
use widths::calculate_optimal_delta_length;

// What a channel's side values take.
fn side_bits(layout: Layout, channel: usize) -> usize
    requires legal_layout { LegalLayout layout }
    requires channel_bound { channel < 16 }
    ensures { (result ≡ side_count_at layout channel * side_width (kind_at layout channel)) × (result ≤ 48) }
{
    let width = layouts::side_width(layout, channel);
    layouts::side_count(layout, channel) * width as usize
}

fn channel_header(layout: Layout, channel: usize, factors: &[u8]) -> usize
    requires legal_layout { LegalLayout layout }
    requires channel_bound { (channel < 16) × (length factors.now ≡ 128) }
    ensures { (result ≡ header_bits layout factors.now channel) × (result ≤ 819) }
{
    let coded = coded_count(layout, channel);
    let width = calculate_optimal_delta_length(factors, coded);
    width.cost + side_bits(layout, channel)
}

// The part that no level or boundary changes.
pub fn calculate_frame_header_length(layout: Layout, factors: &[u8]) -> usize
    requires legal_layout { LegalLayout layout }
    requires factors_len { length factors.now ≡ factor_length layout }
    ensures { (result ≡ fixed_bits layout factors.now) × (result ≤ 13152) }
{
    let mut sum: usize = 0;
    for c in 0..layout.channels {
        let f = c * 128;
        sum += channel_header(layout, c, &factors[f..f + 128]);
    }
    48 + sum
}
