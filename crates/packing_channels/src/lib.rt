// Document 01, **Frame**: each channel's factors and side values.
#![tactic(auto)]

// Sync with level and boundary, and one factor by its delta.
pub mod values;

ghost use Rattle.std.specs.Prelude.{◌≡◌, ◌++◌, ◌+◌, ◌-◌, ◌*◌, ◌^◌, ◌<◌, ◌≤◌, length, get_or, take};
ghost use Rattle.buffers.specs.Walk.{build};
ghost use Rattle.bits.specs.Bits.{bits};
ghost use Rattle.emission.specs.Run.{Emits};
ghost use Rattle.rules.specs.Format.{each_bits, times};
ghost use Rattle.rules.specs.Layout.{LegalLayout, kind_at, kinds_of};
ghost use Rattle.rules.specs.Width.{width};
ghost use Rattle.rules.specs.Record.{chan_in, chan_of};
ghost use Rattle.rules.specs.Fields.{factor_bits, all_factor_bits, channel_fields};
ghost use Rattle.widths.specs.Previous.{factor_before};

use crate::values::write_delta;
use emission::Run;
use layouts::{coded_count, side_count, side_width};
use rules::Layout;
use widths::calculate_optimal_delta_length;

// Factor i at a width: the first, and each at width 6, in 6 bits.
fn write_factor(run: Run, payload: &mut [u8], factors: &[u8], i: usize, width: usize) -> Run
    requires { (1 ≤ width) × (width ≤ 6) × (run.n ≤ 7) × (run.at < 2 ^ 49) × (i < length factors.now) }
    ensures { Emits run payload.old
        (factor_bits width (factor_before i (get_or factors.now (i - 1) 0)) (get_or factors.now i 0)) result payload.new
        × (8 * result.at + result.n ≤ 8 * run.at + run.n + 11) }
{
    let factor = factors[i];
    if i == 0 {
        return run.write(payload, factor as u32, 6);
    }
    if width == 6 {
        return run.write(payload, factor as u32, 6);
    }
    write_delta(run, payload, width, factors[i - 1], factor)
}

fn write_factors(run: Run, payload: &mut [u8], factors: &[u8], coded: usize, width: usize) -> Run
    requires { (1 ≤ width) × (width ≤ 6) × (run.n ≤ 7) × (run.at < 2 ^ 48) × (length factors.now ≡ 128) × (coded ≤ 128) }
    ensures { Emits run payload.old (all_factor_bits width coded (take coded factors.now)) result payload.new
        × (8 * result.at + result.n ≤ 8 * run.at + run.n + 1408) }
{
    let mut at = run;
    for i in 0..coded {
        at = write_factor(at, payload, factors, i, width);
    }
    at
}

// The width in 3 bits, and the coded factors; width 0 has none.
fn write_scale_factors(run: Run, payload: &mut [u8], factors: &[u8], coded: usize) -> Run
    requires { (run.n ≤ 7) × (run.at < 2 ^ 47) × (length factors.now ≡ 128) × (coded ≤ 128) }
    ensures { Emits run payload.old
        (bits 3 (width (take coded factors.now)) ++ all_factor_bits (width (take coded factors.now)) coded
        (take coded factors.now)) result payload.new
        × (8 * result.at + result.n ≤ 8 * run.at + run.n + 1411) }
{
    let best = calculate_optimal_delta_length(factors, coded);
    let width = best.bits;
    let next = run.write(payload, width as u32, 3);
    if width == 0 {
        return next;
    }
    write_factors(next, payload, factors, coded, width)
}

// Side values, each in `width` bits.
fn write_side(run: Run, payload: &mut [u8], side: &[u8], width: u32) -> Run
    requires { (run.n ≤ 7) × (run.at < 2 ^ 47) × (length side.now ≤ 8) × (width ≤ 6) }
    ensures { Emits run payload.old (each_bits (λ _. bits width) (times (length side.now)) side.now)
        result payload.new × (8 * result.at + result.n ≤ 8 * run.at + run.n + 48) }
{
    let mut at = run;
    for &value in side {
        at = at.write(payload, value as u32, width);
    }
    at
}

// A channel's width, factors and side values.
fn write_channel(
    run: Run,
    payload: &mut [u8],
    layout: Layout,
    channel: usize,
    factors: &[u8],
    side: &[u8],
) -> Run
    requires legal_layout { LegalLayout layout }
    requires n_bound { (run.n ≤ 7) × (run.at < 2 ^ 46) × (channel < 16) × (length factors.now ≡ 128) × (length side.now ≡ 8) }
    ensures { Emits run payload.old
        (channel_fields layout (kind_at layout channel) (chan_in layout channel factors.now side.now)) result payload.new
        × (8 * result.at + result.n ≤ 8 * run.at + run.n + 1459) }
{
    let coded = coded_count(layout, channel);
    let next = write_scale_factors(run, payload, factors, coded);
    let count = side_count(layout, channel);
    let width = side_width(layout, channel);
    write_side(next, payload, &side[..count], width)
}

pub fn write_channels(
    run: Run,
    payload: &mut [u8],
    layout: Layout,
    factors: &[u8],
    side: &[u8],
) -> Run
    requires legal_layout { LegalLayout layout }
    requires n_bound { (run.n ≤ 7) × (run.at < 2 ^ 45) × (length factors.now ≡ layout.channels * 128) × (length side.now ≡ layout.channels * 8) }
    ensures { Emits run payload.old
        (each_bits (channel_fields layout) (kinds_of layout) (build (chan_of layout factors.now side.now) layout.channels))
        result payload.new × (8 * result.at + result.n ≤ 8 * run.at + run.n + 23344) }
{
    let mut at = run;
    for c in 0..layout.channels {
        let f = c * 128;
        let s = c * 8;
        at = write_channel(
            at,
            payload,
            layout,
            c,
            &factors[f..f + 128],
            &side[s..s + 8],
        );
    }
    at
}
