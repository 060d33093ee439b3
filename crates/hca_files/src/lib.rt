// The calls on files, by numbers and slices only, no `requires`.
#![tactic(auto)]

// The file header: its writer, its reader.
pub mod header;
pub mod header_reading;
// The list beside the bank.
pub mod lists;
// The WAV reader.
pub mod wavs;
