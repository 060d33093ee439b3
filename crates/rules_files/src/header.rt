// What the file header is made from, and what its writer and its reader answer.

// A loop's start and end in samples of the input, before the delay is added.
#[derive(Clone, Copy, Debug, PartialEq, Eq)]
pub struct LoopPoints {
    pub start: u64,
    pub end: u64,
}

// A stream: samples a second, frames, samples of padding behind the last one, and the loop, where there is one.
#[derive(Clone, Copy, Debug, PartialEq, Eq)]
pub struct Stream {
    pub rate: u64,
    pub frames: u64,
    pub padding: u64,
    pub points: Option<LoopPoints>,
}

// A loop as the header has it: its first and last frame, the samples before it in the first, those behind it in the last.
#[derive(Clone, Copy, Debug, PartialEq, Eq)]
pub struct LoopFields {
    pub start_frame: u64,
    pub end_frame: u64,
    pub delay: u64,
    pub padding: u64,
}

// Why no header was written.
#[derive(Clone, Copy, Debug, PartialEq, Eq)]
pub enum HeaderRefusal {
    BadLayout,
    ShortBuffer,
    BadHeader,
}

// What a header says: the layout without its kinds, and the stream with the loop as it stands there.
#[derive(Clone, Copy, Debug, PartialEq, Eq)]
pub struct FileHeader {
    pub channels: usize,
    pub base: usize,
    pub stereo: usize,
    pub total: usize,
    pub frame_size: usize,
    pub minimum: usize,
    pub maximum: usize,
    pub rate: u64,
    pub frames: u64,
    pub padding: u64,
    pub points: Option<LoopFields>,
}

// Why bytes are no header.
#[derive(Clone, Copy, Debug, PartialEq, Eq)]
pub enum HeaderReadRefusal {
    ShortBuffer,
    WrongCheck,
    WrongName,
    BadField,
    NotZero,
}
