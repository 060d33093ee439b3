// Document 01 as types and definitions: what every crate above works on, and what a reader must believe.
#![tactic(auto)]

#[derive(Clone, Copy, Debug, PartialEq, Eq)]
pub enum ChannelType {
    Discrete,
    StereoPrimary,
    StereoSecondary,
}

#[derive(Clone, Copy)]
pub struct Channel {
    pub kind: ChannelType,
}

// Whether a code may leave its range below resolution 8, as in the Rust, or is held within it.
#[derive(Clone, Copy, Debug, PartialEq, Eq)]
pub enum Mode {
    Rust,
    Held,
}

// A stream's layout: how many channels of which kinds, the bands, the frame's size in bytes, the lowest and the highest resolution, the mode.
#[derive(Clone, Copy)]
pub struct Layout {
    pub channels: usize,
    pub kinds: [Channel; 16],
    pub base: usize,
    pub stereo: usize,
    pub total: usize,
    pub frame_size: usize,
    pub minimum: usize,
    pub maximum: usize,
    pub mode: Mode,
}

// The lengths of the lent buffers of a record and of its frame.
#[derive(Clone, Copy)]
pub struct Room {
    pub factors: usize,
    pub side: usize,
    pub codes: usize,
    pub frame: usize,
}

// The lengths of all that is lent to the stage.
#[derive(Clone, Copy)]
pub struct StageRoom {
    pub spectra: usize,
    pub intensities: usize,
    pub scaled: usize,
    pub stored: Room,
}

// What the stage delivers: level, boundary, pairs removed and bits written.
#[derive(Clone, Copy, Debug, PartialEq, Eq)]
pub struct Delivery {
    pub level: usize,
    pub boundary: usize,
    pub pairs: usize,
    pub bits: usize,
}

// Why the stage refuses, with the number beside it.
#[derive(Clone, Copy, Debug, PartialEq, Eq)]
pub enum StageRefusal {
    BadLayout,
    ShortBuffer,
    BadIntensity(usize),
    BadSpectrum(usize),
    NoLevel(usize),
    TooLong(usize),
}

// What the record writer and the strict reader deliver: level, boundary, and the bits written or read.
#[derive(Clone, Copy, Debug, PartialEq, Eq)]
pub struct RecordDelivery {
    pub level: usize,
    pub boundary: usize,
    pub bits: usize,
}

// Why the record writer refuses; beside TooLong the bits that all fields need.
#[derive(Clone, Copy, Debug, PartialEq, Eq)]
pub enum WriteRefusal {
    BadLayout,
    ShortBuffer,
    NotLegal,
    TooLong(usize),
}

// Why the strict reader refuses, with the bit that it names.
#[derive(Clone, Copy, Debug, PartialEq, Eq)]
pub enum ReadRefusal {
    BadLayout,
    ShortBuffer,
    WrongCheck,
    WrongSync,
    BadWidth(usize),
    BadFactor(usize),
    PastEnd(usize),
    FillNotZero(usize),
}
