// INTENSITY_RATIO_BOUNDS, as decimals that round to its patterns.
pub const RATIO_BOUNDS: [f32; 14] = [
    1.9285715,
    1.7857143,
    1.6428572,
    1.5,
    1.3571428,
    1.2142857,
    1.0714285,
    0.9285714,
    0.78571427,
    0.64285713,
    0.5,
    0.35714287,
    0.21428572,
    0.071428575,
];
