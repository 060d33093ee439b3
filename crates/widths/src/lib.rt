// Document 01, **Width**: the width of a channel's factor deltas, and what its factors cost.
#![tactic(auto)]

// One factor's delta, how far a width reaches, and what a later band takes.
pub mod deltas;

ghost use Rattle.std.specs.Prelude.{◌≡◌, ◌+◌, ◌*◌, ◌≤◌, length, take};
ghost use Rattle.rules.specs.Width.{width, width_cost};
ghost use Rattle.widths.specs.Walks.{Short, longer, first_walk, walk_on, or_less, chosen_of};

use crate::deltas::{bits_at, distance};

#[derive(Clone, Copy)]
pub struct Width {
    pub bits: usize,
    pub cost: usize,
}

// The lengths of widths 1 to 5 for the factors walked so far, the last factor, and whether all so far are 0. No length passes 1,406; narrow, so that eight
// factors are priced side by side.
#[derive(Clone, Copy)]
struct Walk {
    lengths: [u16; 5],
    previous: u8,
    is_zero: bool,
}

impl Width {
    // A width of strictly less cost takes its place.
    fn or_less(self, bits: usize, length: u16) -> Width
        requires { (self.bits ≤ 6) × (bits ≤ 6) }
        ensures { (result ≡ or_less bits length self) × (result.bits ≤ 6) × (result.cost ≤ self.cost) }
    {
        let cost = usize::from(length);
        if cost < self.cost {
            Width { bits, cost }
        } else {
            self
        }
    }
}

// The lengths with one factor more.
fn longer(lengths: [u16; 5], previous: u8, factor: u8) -> [u16; 5]
    requires { Short lengths }
    ensures { result ≡ longer lengths previous factor }
{
    let z = distance(previous, factor);
    let mut more = [0; 5];
    for (i, length) in more.iter_mut().enumerate() {
        *length = lengths[i] + bits_at(i as u16 + 1, z);
    }
    more
}

// 6, unless a width of 1 to 5 costs strictly less: then the first of least cost.
fn chosen(lengths: [u16; 5], n: usize) -> Width
    requires { n ≤ 128 }
    ensures { (result ≡ chosen_of lengths n 5) × (result.bits ≤ 6) × (result.cost ≤ 3 + 6 * n) }
{
    let mut best = Width {
        bits: 6,
        cost: 3 + 6 * n,
    };
    for (i, &length) in lengths.iter().enumerate() {
        best = best.or_less(i + 1, length);
    }
    best
}

impl Walk {
    // 3 bits of the width and 6 of the first factor.
    fn of_first(first: u8) -> Walk
        ensures { result ≡ first_walk first }
    {
        Walk {
            lengths: [9; 5],
            previous: first,
            is_zero: first == 0,
        }
    }

    // With one factor more, which is the last from then on.
    fn with(self, factor: u8) -> Walk
        requires { Short self.lengths }
        ensures { result ≡ walk_on self factor }
    {
        Walk {
            lengths: longer(self.lengths, self.previous, factor),
            previous: factor,
            is_zero: self.is_zero & (factor == 0),
        }
    }
}

// 0 where all factors are 0; else 6, unless a width of 1 to 5 costs strictly less: then the first
// of least cost. Each factor is read once.
pub fn calculate_optimal_delta_length(factors: &[u8], n: usize) -> Width
    requires { (n ≤ 128) × (n ≤ length factors.now) }
    ensures { (result.bits ≡ width (take n factors.now)) × (result.cost ≡ width_cost (take n factors.now)) × (result.bits ≤ 6)
        × (result.cost ≤ 3 + 6 * n) }
{
    let zero = Width { bits: 0, cost: 3 };
    if n == 0 {
        return zero;
    }
    let mut walk = Walk::of_first(factors[0]);
    for &factor in &factors[1..n] {
        walk = walk.with(factor);
    }
    if walk.is_zero {
        return zero;
    }
    chosen(walk.lengths, n)
}
