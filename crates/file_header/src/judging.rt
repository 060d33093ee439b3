// Refusals 27, 28 and 29 of a header of 96 bytes, each a whole pass.
ghost use Rattle.std.specs.Prelude.{◌≡◌, true, [], ◌∷◌, ◌≤◌, length};
ghost use Rattle.rules.specs.Layout.{LegalLayout, bands_per_group};
ghost use Rattle.rules_files.specs.FileHeader.{hca_name, version_piece, size_piece, format_name, delay_piece, compression_name, track_piece};
ghost use Rattle.rules_files.specs.FileHeader.{config_piece, per_group_piece, cipher_name, cipher_piece, pad_name, channel_config};
ghost use Rattle.rules_files.specs.HeaderReading.{all_stand, names_right, fields_of, layout_with, limits_right, loop_right, fields_right, rest_zero};

use crate::chunks::channel_config;
use crate::numbers_at::{stands, tail_of, zero_bytes};
use layouts::{bands_per_group, legal};
use rules::{Channel, ChannelType, Layout, Mode};
use rules_files::header::{FileHeader, LoopFields};

// `HCA\0` and the version, `fmt\0`, `comp`.
#[tactic(auto, using(crate::proofs::Readings::four_stand))]
fn front_names(header: &[u8; 96]) -> bool
    ensures { result ≡ all_stand header.now (hca_name ∷ version_piece ∷ format_name ∷ compression_name ∷ []) }
{
    stands(header, 0, 4, 0x4843_4100)
        && stands(header, 4, 2, 0x0200)
        && stands(header, 8, 4, 0x666D_7400)
        && stands(header, 24, 4, 0x636F_6D70)
}

// `ciph` and `pad\0`.
#[tactic(auto, using(crate::proofs::Readings::two_stand))]
fn tail_names(header: &[u8; 96], at: usize) -> bool
    requires { at ≤ 56 }
    ensures { result ≡ all_stand header.now (cipher_name at ∷ pad_name at ∷ []) }
{
    stands(header, at, 4, 0x6369_7068) && stands(header, at + 6, 4, 0x7061_6400)
}

pub fn names_right(header: &[u8; 96]) -> bool
    ensures { result ≡ names_right header.now }
{
    front_names(header) && tail_names(header, tail_of(header))
}

// The layout of a header's fields, with the caller's kinds and mode.
pub fn layout_with(header: FileHeader, kinds: [Channel; 16], mode: Mode) -> Layout
    ensures { result ≡ layout_with header kinds mode }
{
    Layout {
        channels: header.channels,
        kinds,
        base: header.base,
        stereo: header.stereo,
        total: header.total,
        frame_size: header.frame_size,
        minimum: header.minimum,
        maximum: header.maximum,
        mode,
    }
}

// With kinds and a mode that no rule of the header's looks at.
fn plain_layout(header: FileHeader) -> Layout
    ensures { result ≡ layout_with header result.kinds result.mode }
{
    let discrete = Channel {
        kind: ChannelType::Discrete,
    };
    let kinds = [discrete; 16];
    layout_with(header, kinds, Mode::Rust)
}

// The layout's limits, the header's channels and rate.
fn limits_right(fields: FileHeader, layout: Layout) -> bool
    requires { layout ≡ layout_with fields layout.kinds layout.mode }
    ensures { result ≡ limits_right fields }
{
    legal(layout) && fields.channels <= 8 && 1 <= fields.rate && fields.rate <= 0x7F_FFFF
}

// Header size, delay, track count.
#[tactic(auto, using(crate::proofs::Readings::three_stand))]
fn fixed_stand(header: &[u8; 96]) -> bool
    ensures { result ≡ all_stand header.now (size_piece ∷ delay_piece ∷ track_piece ∷ []) }
{
    stands(header, 6, 2, 96) && stands(header, 20, 2, 128) && stands(header, 32, 1, 1)
}

// Configuration and bands per group, as the layout gives them; cipher type 0.
#[tactic(auto, using(crate::proofs::Readings::three_stand))]
fn derived_stand(header: &[u8; 96], layout: Layout, at: usize) -> bool
    requires legal_layout { LegalLayout layout }
    requires channels_bound { (layout.channels ≤ 8) × (at ≤ 56) }
    ensures { result ≡ all_stand header.now
        (config_piece (channel_config layout.channels) ∷ per_group_piece (bands_per_group layout) ∷ cipher_piece at ∷ []) }
{
    let config = channel_config(layout.channels);
    let per_group = bands_per_group(layout);
    stands(header, 33, 1, config as u64)
        && stands(header, 37, 1, per_group as u64)
        && stands(header, at + 4, 2, 0)
}

// Four numbers that the writer gives for some points: both points keep to 32 bits after the shift, and were moved by 128.
pub fn loop_right(points: Option<LoopFields>) -> bool
    ensures { result ≡ loop_right points }
{
    let Some(fields) = points else {
        return true;
    };
    fields.delay < 1024
        && fields.padding < 1024
        && fields.start_frame <= 4194303
        && fields.end_frame <= 4194303
        && 128 <= 1024 * fields.start_frame + fields.delay
        && 128 <= 1024 * (fields.end_frame + 1) - fields.padding
        && 1024 * (fields.end_frame + 1) - fields.padding <= 0xFFFF_FFFF
}

pub fn fields_right(header: &[u8; 96], fields: FileHeader) -> bool
    requires { fields ≡ fields_of header.now }
    ensures { result ≡ fields_right header.now }
{
    let layout = plain_layout(fields);
    limits_right(fields, layout)
        && fixed_stand(header)
        && derived_stand(header, layout, tail_of(header))
        && loop_right(fields.points)
}

pub fn rest_zero(header: &[u8; 96]) -> bool
    ensures { result ≡ rest_zero header.now }
{
    zero_bytes(header, 38, 40) && zero_bytes(header, tail_of(header) + 10, 94)
}
