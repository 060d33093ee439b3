// Document 01, **Width**: the delta of one factor from the one before it, how far a width reaches, and what a later band takes.
ghost use Rattle.std.specs.Prelude.{◌≡◌, ◌+◌, ◌≤◌, cond, leb, nat_abs};
ghost use Rattle.rules.specs.Width.{reach_of, delta_of, near};

// m = 2^(d-1) - 1: how far a delta of d bits reaches.
pub fn reach(d: usize) -> usize
    requires { (1 ≤ d) × (d ≤ 5) }
    ensures { (result ≡ reach_of d) × (result ≤ 15) }
{
    (1 << (d - 1)) - 1
}

pub fn delta(previous: u8, factor: u8) -> i32
    ensures { result ≡ delta_of previous factor }
{
    factor as i32 - previous as i32
}

pub fn is_near(d: usize, previous: u8, factor: u8) -> bool
    requires { (1 ≤ d) × (d ≤ 5) }
    ensures { result ≡ near d previous factor }
{
    delta(previous, factor).unsigned_abs() <= reach(d) as u32
}

// |delta|, any two bytes apart.
pub fn distance(previous: u8, factor: u8) -> u8
    ensures { result ≡ nat_abs (delta_of previous factor) }
{
    previous.abs_diff(factor)
}

// What a later band takes: its delta, or an escape and the factor's 6 bits.
pub fn bits_at(d: u16, distance: u8) -> u16
    requires { (1 ≤ d) × (d ≤ 5) }
    ensures { (result ≡ cond (leb distance (reach_of d)) d (d + 6)) × (result ≤ 11) }
{
    if usize::from(distance) <= reach(usize::from(d)) {
        d
    } else {
        d + 6
    }
}
