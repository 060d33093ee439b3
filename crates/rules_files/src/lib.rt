// What stands around the frames in files, as types and definitions: the file header, the list beside the bank, WAV.
#![tactic(auto)]

pub mod header;
pub mod list;
pub mod wav;
