// Request A2, **Intensity stereo**: the energies of one subframe of a pair, its intensity and its ratio.
ghost use Rattle.std.specs.Prelude.{◌≡◌, ◌+◌, ◌≤◌, length};
ghost use Rattle.rules_stereo.specs.Mixed.{energies, mixing_of, bound_of};
ghost use Rattle.stereo_mixing.specs.Bounds.{IsBounds};
ghost use Rattle.stereo_mixing.specs.Bands.{energies_between};

use floats::hold;
use floats::magnitudes::add_magnitude;
use rules_stereo::{Energies, Mixing};

mod entries;

// The energies of bands of the left, and of as many of the right.
fn energies_of(lefts: &[f32], rights: &[f32]) -> Energies
    requires { length lefts.now ≡ length rights.now }
    ensures { result ≡ energies_between lefts.now rights.now }
{
    let mut left: f32 = 0.0;
    let mut right: f32 = 0.0;
    let mut total: f32 = 0.0;
    for (&x, &y) in lefts.iter().zip(rights) {
        left = add_magnitude(left, x);
        right = add_magnitude(right, y);
        total = add_magnitude(total, x + y);
    }
    Energies {
        left,
        right,
        total: total * 2.0,
    }
}

// The energies of `count` bands of a pair from `at` on, of its 2,048 values, the left's first.
pub fn stereo_energy(pair: &[f32], at: usize, count: usize) -> Energies
    requires { (at + count ≤ 1024) × (length pair.now ≡ 2048) }
    ensures { result ≡ energies pair.now at count }
{
    let (lefts, rights) = pair.split_at(1024);
    energies_of(&lefts[at..at + count], &rights[at..at + count])
}

fn ratio_bounds() -> [f32; 14]
    ensures { IsBounds result }
{
    entries::RATIO_BOUNDS
}

// What no bound ends the search at.
const LAST_INTENSITY: u8 = 13;

// 1, and one more while it is below 13 and its bound is at least what is stored.
fn bound(stored: f32) -> u8
    ensures { result ≡ bound_of stored }
{
    let bounds = ratio_bounds();
    (1..LAST_INTENSITY)
        .find(|&value| !(bounds[value as usize] >= stored))
        .unwrap_or(LAST_INTENSITY)
}

// The intensity and the ratio of a subframe, by its energies.
pub fn quantize_intensity(e: Energies) -> Mixing
    ensures { result ≡ mixing_of e }
{
    let combined = e.left + e.right;
    if combined <= 0.0 {
        return Mixing {
            value: 0,
            ratio: 1.0,
        };
    }
    let value = bound(2.0 * e.left / combined);
    if e.total > 0.0 {
        let ratio = hold(combined / e.total, 0.5, 0.70710677);
        return Mixing { value, ratio };
    }
    Mixing { value, ratio: 1.0 }
}
