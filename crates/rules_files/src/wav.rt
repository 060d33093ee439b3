// A take from its WAV file: request A13.

// What a `fmt ` chunk says.
#[derive(Clone, Copy, Debug, PartialEq, Eq)]
pub struct WavFormat {
    pub channels: usize,
    pub rate: usize,
    pub depth: usize,
}

// The data chunk: the format that holds there, where its body begins, and its size field.
#[derive(Clone, Copy, Debug, PartialEq, Eq)]
pub struct WavData {
    pub format: WavFormat,
    pub body: usize,
    pub size: usize,
}

// Peak and mean magnitude of a take's samples.
#[derive(Clone, Copy)]
pub struct LevelNote {
    pub peak: f32,
    pub mean: f32,
}

#[derive(Clone, Copy)]
pub struct Take {
    pub channels: usize,
    pub rate: usize,
    pub depth: usize,
    pub count: usize,
    pub note: LevelNote,
}

// Why no take was read.
#[derive(Clone, Copy, Debug, PartialEq, Eq)]
pub enum WavRefusal {
    NotWave,
    NoData,
    BadDepth,
    TooMany,
    ShortBuffer,
    NotFinite,
}
