// Document 01, **Legal record**: level and boundary, a row of values, a code: is each legal?
ghost use Rattle.std.specs.Prelude.{◌≡◌, cond, leb, ltb, eqb, pos, nat_abs, length};
ghost use Rattle.rules.specs.Record.{code_range, legal_head, legal_row};

use quantizer::tables::limit_of;

#[tactic(auto, using(crate::proofs::Ranges::head_in, crate::proofs::Ranges::head_out))]
pub fn legal_head(level: usize, boundary: usize) -> bool
    ensures { result ≡ legal_head level boundary }
{
    level <= 511 && boundary <= 127
}

fn legal_value(value: u8, written: bool, limit: u8) -> bool
    ensures { result ≡ cond written (ltb value limit) (eqb value 0) }
{
    if written { value < limit } else { value == 0 }
}

// The first n values lie below the limit, and the others are 0.
pub fn legal_row(values: &[u8], n: usize, limit: u8) -> bool
    ensures { result ≡ legal_row n limit (length values.now) values.now }
{
    for (i, &value) in values.iter().enumerate() {
        if !legal_value(value, i < n, limit) {
            return false;
        }
    }
    true
}

// The largest magnitude of a code; 0 past the tables, which end at resolution 15.
fn code_range(r: u8) -> i64
    ensures { result ≡ pos (code_range r) }
{
    match r {
        0..=7 => r as i64,
        8..=15 => limit_of(r),
        _ => 0,
    }
}

// In an i64, where every i32 has its magnitude.
pub fn legal_code(code: i32, r: u8) -> bool
    ensures { result ≡ leb (nat_abs code) (code_range r) }
{
    code.unsigned_abs() as i64 <= code_range(r)
}
