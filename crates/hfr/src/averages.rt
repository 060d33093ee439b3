// Document 01, **HFR**: the averages of four groups side by side, and the value that a group's scale is the factor of.
ghost use Rattle.std.specs.Prelude.{◌≡◌, ℕ, cond, ◌+◌, ◌-◌, ◌*◌, ◌≤◌, ◌<◌, min, ltb, length, get_or};
ghost use Rattle.std.specs.Float.{nan};
ghost use Rattle.floats.specs.Single.{folded, add_abs, no_average, with_eight};
ghost use Rattle.rules.specs.Layout.{LegalLayout};
ghost use Rattle.rules.specs.Hfr.{group_average, spectrum_average, source_average, group_value};
ghost use Rattle.hfr.specs.Sums.{band_count, band_at, with_sum, AreFour};

use floats::Average;
use floats::magnitudes::add_magnitude;
use rules::Layout;

// Of four groups side by side: a number, a sum, a running average of each.
#[derive(Clone, Copy)]
pub struct Four<T> {
    pub a: T,
    pub b: T,
    pub c: T,
    pub d: T,
}

impl<T: Copy> Four<T> {
    // What f makes of each.
    fn map<U: Copy, F: Fn(T) -> U>(self, f: F) -> Four<U>
        requires { F.pre f self.a × F.pre f self.b × F.pre f self.c × F.pre f self.d }
        ensures { F.post f self.a result.a × F.post f self.b result.b × F.post f self.c result.c × F.post f self.d result.d }
    {
        Four {
            a: f(self.a),
            b: f(self.b),
            c: f(self.c),
            d: f(self.d),
        }
    }
}

// The bands that an average is of: where the first of band b's eight values stands among a channel's 1,024, and how far apart the eight are. A stride that
// is a number takes no instructions.
trait Bands: Copy {
    const STRIDE: usize;

    ghost STRIDE: { ℕ };

    ghost place: { Self → ℕ → ℕ };

    ghost has: { Self → ℕ → Type 0 };

    fn place(self, b: usize) -> usize
        requires { has self b }
        ensures { (result ≡ place self b) × (result + 7 * STRIDE < 1024) };
}

// Of spectra, by subframe and band: the bands from N on.
#[derive(Clone, Copy)]
struct FromStart {
    n: usize,
}

impl Bands for FromStart {
    const STRIDE: usize = 128;

    ghost STRIDE = { 128 };

    ghost place = { λ bands b. bands.n + b };

    ghost has = { λ bands b. bands.n + b < 128 };

    fn place(self, b: usize) -> usize {
        self.n + b
    }
}

// Of scaled values, by band and subframe: the same bands mirrored below N.
#[derive(Clone, Copy)]
struct Mirrored {
    n: usize,
}

impl Bands for Mirrored {
    const STRIDE: usize = 1;

    ghost STRIDE = { 1 };

    ghost place = { λ bands b. (bands.n - 1 - b) * 8 };

    ghost has = { λ bands b. (b < bands.n) × (bands.n ≤ 128) };

    fn place(self, b: usize) -> usize {
        (self.n - 1 - b) * 8
    }
}

// How many values of b a group of g takes.
fn band_count(group: usize, g: usize, limit: usize) -> usize
    requires { (group < 8) × (g ≤ 16) }
    ensures { (result ≡ band_count g limit group) × (result ≤ 16) }
{
    ((group + 1) * g).min(limit).saturating_sub(group * g)
}

// Its j-th; where it has none, one that is below the limit.
fn band_at(group: usize, g: usize, limit: usize, j: usize) -> usize
    requires { (group < 8) × (g ≤ 16) × (j ≤ 16) × (1 ≤ limit) }
    ensures { (result ≡ band_at g limit j group) × (result < limit) }
{
    (group * g + j).min(limit - 1)
}

// The four groups from `group` on.
fn four_from(group: usize) -> Four<usize>
    requires { group ≤ 4 }
    ensures { (result.a ≡ group) × (result.b ≡ group + 1) × (result.c ≡ group + 2) × (result.d ≡ group + 3) }
{
    Four {
        a: group,
        b: group + 1,
        c: group + 2,
        d: group + 3,
    }
}

// How many values of b each takes.
fn four_counts(group: usize, g: usize, limit: usize) -> Four<usize>
    requires { (group ≤ 4) × (g ≤ 16) }
    ensures are_four { AreFour (band_count g limit) group result.a result.b result.c result.d }
    ensures a_bound { (result.a ≤ 16) × (result.b ≤ 16) × (result.c ≤ 16) × (result.d ≤ 16) }
{
    four_from(group).map(|i| band_count(i, g, limit))
}

// Each one's j-th.
fn four_bands(group: usize, g: usize, limit: usize, j: usize) -> Four<usize>
    requires { (group ≤ 4) × (g ≤ 16) × (j ≤ 16) × (1 ≤ limit) }
    ensures are_four { AreFour (band_at g limit j) group result.a result.b result.c result.d }
    ensures a_lt_limit { (result.a < limit) × (result.b < limit) × (result.c < limit) × (result.d < limit) }
{
    four_from(group).map(|i| band_at(i, g, limit, j))
}

// The sums with one magnitude more each.
fn with_ones(sums: Four<f32>, xs: &[f32], at: Four<usize>, i: usize) -> Four<f32>
    requires { (at.a + i < length xs.now) × (at.b + i < length xs.now) × (at.c + i < length xs.now) × (at.d + i < length xs.now) }
    ensures { (result.a ≡ add_abs sums.a (get_or xs.now (at.a + i) nan)) × (result.b ≡ add_abs sums.b (get_or xs.now (at.b + i) nan))
        × (result.c ≡ add_abs sums.c (get_or xs.now (at.c + i) nan)) × (result.d ≡ add_abs sums.d (get_or xs.now (at.d + i) nan)) }
{
    Four {
        a: add_magnitude(sums.a, xs[at.a + i]),
        b: add_magnitude(sums.b, xs[at.b + i]),
        c: add_magnitude(sums.c, xs[at.c + i]),
        d: add_magnitude(sums.d, xs[at.d + i]),
    }
}

// The sums with a band's eight magnitudes more each, each in its own order.
fn with_eights<B: Bands>(before: Four<f32>, xs: &[f32], at: Four<usize>) -> Four<f32>
    requires xs_len { length xs.now ≡ 1024 }
    requires at_bound { (at.a + 7 * B.STRIDE < 1024) × (at.b + 7 * B.STRIDE < 1024) × (at.c + 7 * B.STRIDE < 1024) × (at.d + 7 * B.STRIDE < 1024) }
    ensures { (result.a ≡ folded add_abs xs.now at.a B.STRIDE 8 before.a)
        × (result.b ≡ folded add_abs xs.now at.b B.STRIDE 8 before.b)
        × (result.c ≡ folded add_abs xs.now at.c B.STRIDE 8 before.c)
        × (result.d ≡ folded add_abs xs.now at.d B.STRIDE 8 before.d) }
{
    let mut sums = before;
    for s in 0..8 {
        sums = with_ones(sums, xs, at, s * B::STRIDE);
    }
    sums
}

// A group's average with its j-th band, of which its sum has come to `sum`; as it was where the group has no j-th band.
fn with_band(average: Average, sum: f32, j: usize, count: usize) -> Average
    requires { average.count ≤ 128 }
    ensures { (result ≡ cond (ltb j count) (with_sum sum average) average) × (result.count ≤ average.count + 8) }
{
    if j < count {
        Average {
            sum,
            count: average.count + 8,
        }
    } else {
        average
    }
}

fn with_bands(
    averages: Four<Average>,
    sums: Four<f32>,
    j: usize,
    counts: Four<usize>,
) -> Four<Average>
    requires { (averages.a.count ≤ 128) × (averages.b.count ≤ 128) × (averages.c.count ≤ 128) × (averages.d.count ≤ 128) }
    ensures a_value { (result.a ≡ cond (ltb j counts.a) (with_sum sums.a averages.a) averages.a)
        × (result.b ≡ cond (ltb j counts.b) (with_sum sums.b averages.b) averages.b)
        × (result.c ≡ cond (ltb j counts.c) (with_sum sums.c averages.c) averages.c)
        × (result.d ≡ cond (ltb j counts.d) (with_sum sums.d averages.d) averages.d) }
    ensures count_bound { (result.a.count ≤ averages.a.count + 8) × (result.b.count ≤ averages.b.count + 8)
        × (result.c.count ≤ averages.c.count + 8) × (result.d.count ≤ averages.d.count + 8) }
{
    Four {
        a: with_band(averages.a, sums.a, j, counts.a),
        b: with_band(averages.b, sums.b, j, counts.b),
        c: with_band(averages.c, sums.c, j, counts.c),
        d: with_band(averages.d, sums.d, j, counts.d),
    }
}

fn no_averages() -> Four<Average>
    ensures { (result.a ≡ no_average) × (result.b ≡ no_average) × (result.c ≡ no_average) × (result.d ≡ no_average) }
{
    Four {
        a: Average::none(),
        b: Average::none(),
        c: Average::none(),
        d: Average::none(),
    }
}

// The averages of the four groups from `group` on, of a channel's 1,024 values, where a group's bands end at the limit; the first of the four has the most.
fn averages_of<B: Bands>(
    bands: B,
    xs: &[f32],
    limit: usize,
    g: usize,
    group: usize,
) -> Four<Average>
    requires xs_len { (length xs.now ≡ 1024) × (g ≤ 16) × (group ≤ 4) }
    requires has_all { (b : ℕ) → b < limit → B.has bands b }
    ensures are_four { AreFour (group_average (λ b. with_eight xs.now (B.place bands b) B.STRIDE) limit g) group result.a result.b result.c result.d }
    ensures count_bound { (result.a.count ≤ 128) × (result.b.count ≤ 128) × (result.c.count ≤ 128) × (result.d.count ≤ 128) }
{
    let counts = four_counts(group, g, limit);
    let mut averages = no_averages();
    for j in 0..counts.a {
        let at = four_bands(group, g, limit, j).map(|b| bands.place(b));
        let sums = with_eights::<B>(averages.map(|average| average.sum), xs, at);
        averages = with_bands(averages, sums, j, counts);
    }
    averages
}

// The spectrum averages of the four groups from `group` on.
pub fn hfr_spectra_averages(layout: Layout, spectra: &[f32], group: usize) -> Four<Average>
    requires legal_layout { LegalLayout layout }
    requires spectra_len { (length spectra.now ≡ 1024) × (group ≤ 4) }
    ensures are_four { AreFour (spectrum_average layout spectra.now) group result.a result.b result.c result.d }
    ensures count_bound { (result.a.count ≤ 128) × (result.b.count ≤ 128) × (result.c.count ≤ 128) × (result.d.count ≤ 128) }
{
    let n = layouts::start(layout);
    let g = layouts::bands_per_group(layout);
    averages_of(FromStart { n }, spectra, 128 - n, g, group)
}

// Their source averages.
pub fn hfr_source_averages(layout: Layout, scaled: &[f32], group: usize) -> Four<Average>
    requires legal_layout { LegalLayout layout }
    requires scaled_len { (length scaled.now ≡ 1024) × (group ≤ 4) }
    ensures are_four { AreFour (source_average layout scaled.now) group result.a result.b result.c result.d }
    ensures count_bound { (result.a.count ≤ 128) × (result.b.count ≤ 128) × (result.c.count ≤ 128) × (result.d.count ≤ 128) }
{
    let n = layouts::start(layout);
    let g = layouts::bands_per_group(layout);
    let limit = (layout.total - n).min(n);
    averages_of(Mirrored { n }, scaled, limit, g, group)
}

// What a group's scale is the factor of.
pub fn group_value(spectrum: f32, source: f32) -> f32
    ensures { result ≡ group_value spectrum source }
{
    if source > 0.0 {
        spectrum * floats::smaller(1.0 / source, 1.41421356)
    } else {
        spectrum
    }
}
