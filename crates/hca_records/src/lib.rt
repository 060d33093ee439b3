// The calls on records, by numbers and slices only, no `requires`.
#![tactic(auto)]

// The record writer.
pub mod write;
// The strict reader.
pub mod read;
