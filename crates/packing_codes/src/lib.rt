// Document 01, **Frame**: the codes, subframe by subframe, channel by channel, band by band; a subframe's fields by columns.
#![tactic(auto)]

ghost use Rattle.std.specs.Prelude.{◌≡◌, ◌++◌, ◌+◌, ◌*◌, ◌/◌, ◌%◌, ◌^◌, ◌<◌, ◌≤◌, nat_abs, length, get_or, take, drop};
ghost use Rattle.buffers.specs.Walk.{build, AtMost};
ghost use Rattle.emission.specs.Run.{Emits};
ghost use Rattle.rules.specs.Format.{each_bits, times};
ghost use Rattle.rules.specs.Layout.{LegalLayout};
ghost use Rattle.rules.specs.Record.{codes_in};
ghost use Rattle.rules.specs.Fields.{code_bits};
ghost use Rattle.resolutions.specs.Coded.{coded_resolutions};
ghost use Rattle.packing_codes.specs.Columns.{
  ordinal,
  rule_of,
  length_of,
  word_of,
  rule_bits,
  length_at,
  word_at,
  AllRuled,
  AllRanged,
  Blank,
  RowsRuled,
  padded_rows,
  padded_codes,
};

use emission::{Piece, Run};
use layouts::coded_count;
use rules::Layout;

// Of n words the first u have L - 1 bits, the others L: L + 16 u + 256 n.
const RULES: [u32; 16] = [
    0, 786, 1331, 1811, 2420, 2900, 3380, 3860, 7957, 16150, 32535, 65304, 130841, 261914, 524059,
    1048348,
];

// The rule of each band's resolution.
fn code_rules(resolutions: &[u8], rows: &mut [u32])
    requires { (length rows.old ≡ length resolutions.now) × AtMost 15 resolutions.now }
    ensures { rows.new ≡ build (λ i. rule_of (get_or resolutions.now i 0)) (length resolutions.now) }
{
    let rules = RULES;
    for (i, &resolution) in resolutions.iter().enumerate() {
        rows[i] = rules[resolution as usize];
    }
}

// A code's number: 0, 1, -1, 2, -2, ..
fn number_of(code: i32) -> u32
    requires { nat_abs code ≤ 4095 }
    ensures { (result ≡ ordinal code) × (result ≤ 8190) }
{
    if 0 < code {
        return (code + code - 1) as u32;
    }
    (0 - (code + code)) as u32
}

// The field of a number by a rule; none from the n-th on.
fn field_of(rule: u32, number: u32) -> Piece
    requires { (number ≤ 8190) × (1 ≤ rule / 16 % 16 → 1 ≤ rule % 16) }
    ensures { (result.length ≡ length_of rule number) × (result.word ≡ word_of rule number) }
{
    let u = (rule >> 4) & 15;
    if number < rule >> 8 {
        if number < u {
            return Piece {
                word: number,
                length: (rule & 15) - 1,
            };
        }
        return Piece {
            word: number + u,
            length: rule & 15,
        };
    }
    Piece { word: 0, length: 0 }
}

// The fields of a subframe's bands, as columns of words and lengths.
fn fields_of(rows: &[u32], codes: &[i32], words: &mut [u32], lengths: &mut [u32])
    requires columns { (length codes.now ≡ length rows.now) × (length words.old ≡ length rows.now) × (length lengths.old ≡ length rows.now) }
    requires all_ruled { AllRuled (length rows.now) rows.now codes.now }
    ensures { (words.new ≡ build (word_at rows.now codes.now) (length rows.now))
        × (lengths.new ≡ build (length_at rows.now codes.now) (length rows.now)) }
{
    for b in 0..rows.len() {
        let field = field_of(rows[b], number_of(codes[b]));
        words[b] = field.word;
        lengths[b] = field.length;
    }
}

// The codes of one subframe of one channel.
fn write_band_codes(
    run: Run,
    payload: &mut [u8],
    rows: &[u32],
    codes: &[i32],
    words: &mut [u32],
    lengths: &mut [u32],
) -> Run
    requires n_bound { (run.n ≤ 7) × (run.at < 2 ^ 48) × (length rows.now ≤ 128) × (length rows.now % 4 ≡ 0) }
    requires columns { (length codes.now ≡ length rows.now) × (length words.old ≡ length rows.now) × (length lengths.old ≡ length rows.now) }
    requires all_ruled { AllRuled (length rows.now) rows.now codes.now }
    ensures { Emits run payload.old (each_bits rule_bits rows.now codes.now) result payload.new
        × (8 * result.at + result.n ≤ 8 * run.at + run.n + 1536) }
{
    fields_of(rows, codes, words, lengths);
    run.put_all(payload, words, lengths)
}

// One subframe of every channel.
fn write_subframe(
    run: Run,
    payload: &mut [u8],
    layout: Layout,
    subframe: usize,
    rows: &[u32],
    codes: &[i32],
    words: &mut [u32],
    lengths: &mut [u32],
) -> Run
    requires legal_layout { LegalLayout layout }
    requires n_bound { (run.n ≤ 7) × (run.at < 2 ^ 47) × (subframe < 8) × (length rows.now ≡ layout.channels * 128)
        × (length codes.now ≡ layout.channels * 1024) × (128 ≤ length words.old) × (128 ≤ length lengths.old) }
    requires rows_ruled { RowsRuled layout rows.now codes.now }
    ensures { Emits run payload.old
        (each_bits (each_bits rule_bits) (build (padded_rows layout rows.now) layout.channels)
        (build (padded_codes layout codes.now subframe) layout.channels)) result payload.new
        × (8 * result.at + result.n ≤ 8 * run.at + run.n + 24576) }
{
    let mut at = run;
    for c in 0..layout.channels {
        let coded = (coded_count(layout, c) + 7) / 8 * 8;
        let r = c * 128;
        let s = c * 1024 + subframe * 128;
        at = write_band_codes(
            at,
            payload,
            &rows[r..r + coded],
            &codes[s..s + coded],
            &mut words[..coded],
            &mut lengths[..coded],
        );
    }
    at
}

// All eight subframes. The rows, words and lengths are room to work in.
pub fn write_codes(
    run: Run,
    payload: &mut [u8],
    layout: Layout,
    resolutions: &[u8],
    codes: &[i32],
    rows: &mut [u32],
    words: &mut [u32],
    lengths: &mut [u32],
) -> Run
    requires legal_layout { LegalLayout layout }
    requires n_bound { (run.n ≤ 7) × (run.at < 2 ^ 46) × (length resolutions.now ≡ layout.channels * 128) × (length codes.now ≡ layout.channels * 1024)
        × (length rows.old ≡ layout.channels * 128) × (128 ≤ length words.old) × (128 ≤ length lengths.old) }
    requires at_most { AtMost 15 resolutions.now × Blank layout resolutions.now × AllRanged layout resolutions.now codes.now }
    ensures { Emits run payload.old
        (each_bits (λ _. each_bits (each_bits code_bits) (build (coded_resolutions layout resolutions.now) layout.channels)) (times 8)
        (build (λ s. build (codes_in layout codes.now s) layout.channels) 8)) result payload.new
        × (8 * result.at + result.n ≤ 8 * run.at + run.n + 196608) }
{
    code_rules(resolutions, rows);
    let mut at = run;
    for s in 0..8 {
        at = write_subframe(at, payload, layout, s, rows, codes, words, lengths);
    }
    at
}
