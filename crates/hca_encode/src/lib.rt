// The calls that encode, by numbers and slices only, no `requires`.
#![tactic(auto)]

// The frame stage.
pub mod frame;
// The stereo stage.
pub mod stereo_frame;
// A line of frames.
pub mod line;
// A line of frames from unmixed spectra.
pub mod stereo_line;
