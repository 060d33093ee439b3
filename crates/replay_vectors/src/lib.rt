// What the program `replay` is made of: reading the fixed vectors, the sums of what a call leaves, and what a case came to.
// These functions promise that they are safe and end, and of a code that it is the number with its bits; that they read and sum rightly is what the
// program's run shows.
#![tactic(auto)]

pub mod cursor;
pub mod outcome;
pub mod sums;
pub mod word;
