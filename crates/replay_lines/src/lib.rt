// Two lines of three fixed frames each by `encode_line`; the tally of the first goes into the second, which is refused on the way.
#![tactic(auto)]

use line::encode_line;
use refusals::Refusal;
use replay_vectors::sums::sum_bytes;
use rules::{Channel, ChannelType, Layout, Mode, StageRefusal};
use rules_line::{LineRefusal, Tally};
use std::io;

// One channel with 64 of 100 bands coded and frames of 170 bytes, as in README's examples.
fn voice() -> Layout {
    let d = Channel {
        kind: ChannelType::Discrete,
    };
    Layout {
        channels: 1,
        kinds: [d; 16],
        base: 64,
        stereo: 0,
        total: 100,
        frame_size: 170,
        minimum: 1,
        maximum: 15,
        mode: Mode::Rust,
    }
}

// The frame that ended a line; 0 where none is named.
fn frame_named(refusal: LineRefusal<StageRefusal>) -> usize {
    match refusal {
        LineRefusal::Frame(k, _) => k,
        _ => 0,
    }
}

// The answer, the tally in frames, bits and pairs, and the sum of the frames' bytes.
fn print_line(
    rt: &impl Print,
    number: usize,
    answer: Result<(), LineRefusal<StageRefusal>>,
    tally: Tally,
    sum: u32,
) -> io::Result<()> {
    let Tally {
        frames,
        bits,
        pairs,
    } = tally;
    match answer {
        Ok(()) => println!(rt; "line {number} delivered tally {frames} {bits} {pairs} sum {sum}"),
        Err(line_refusal) => {
            let frame = frame_named(line_refusal);
            let Refusal {
                number: refusal,
                beside,
            } = Refusal::from(line_refusal);
            println!(rt;
                "line {number} refusal {refusal} beside it {beside} at frame {frame} tally {frames} {bits} {pairs} sum {sum}"
            )
        }
    }
}

// Every byte of the frames is 0x5A before the call.
fn play_line(rt: &impl Print, number: usize, spectra: &[f32], tally: &mut Tally) -> io::Result<()> {
    let mut frames = [0x5Au8; 510];
    let answer = encode_line(
        voice(),
        3,
        spectra,
        &[0; 24],
        &mut [0.0; 1024],
        &mut [0; 1024],
        &mut [0; 128],
        &mut [0; 8],
        &mut frames,
        &mut [0; 12],
        tally,
    );
    print_line(rt, number, answer, *tally, sum_bytes(&frames))
}

// The same, but a line that cannot be printed is let go.
fn play_on(rt: &impl Print, number: usize, spectra: &[f32], tally: &mut Tally) {
    let _ = play_line(rt, number, spectra, tally);
}

// The values of a line, whose second frame is silent, over zeros.
fn set_values(spectra: &mut [f32; 3072]) {
    spectra[1] = 0.5;
    spectra[2048] = -0.25;
    spectra[2179] = 0.75;
}

// README's frame, a silent one, and one with two values; then the same with an infinity in the second. Where a line cannot be printed, it ends with that error.
pub fn replay_lines(rt: &impl Print) -> io::Result<()> {
    let mut spectra = [0.0f32; 3072];
    set_values(&mut spectra);
    let mut tally = Tally::default();
    play_line(rt, 0, &spectra, &mut tally)?;
    spectra[1029] = f32::INFINITY;
    play_line(rt, 1, &spectra, &mut tally)
}

// The same two lines. One that cannot be printed is let go, and the next is tried.
pub fn replay_both_lines(rt: &impl Print) {
    let mut spectra = [0.0f32; 3072];
    set_values(&mut spectra);
    let mut tally = Tally::default();
    play_on(rt, 0, &spectra, &mut tally);
    spectra[1029] = f32::INFINITY;
    play_on(rt, 1, &spectra, &mut tally);
}

#[cfg(test)]
mod tests {
    use super::*;
    use std::alloc::Global;
    use std::cell::{Cell, RefCell};
    use std::fmt::{Display, Write};
    use std::io::{Error, ErrorKind};

    const FIRST: &str = "line 0 delivered tally 3 684 0 sum 1112554263\n";

    const BOTH: &str = "line 0 delivered tally 3 684 0 sum 1112554263
line 1 refusal 4 beside it 5 at frame 1 tally 4 937 0 sum 333415653
";

    // A printer with room for some lines. It keeps what it prints, and counts what it is given.
    #[derive(Drop)]
    struct Room {
        lines: usize,
        tried: Cell<usize>,
        text: RefCell<String>,
    }

    impl Room {
        fn new(alloc: Global, lines: usize) -> Room {
            Room {
                lines,
                tried: Cell::new(0),
                text: RefCell::new(String::new(alloc)),
            }
        }

        fn put<D: Display + Drop>(&self, value: D, end: &str) -> io::Result<()> {
            let tried = self.tried.get();
            self.tried.set(tried.saturating_add(1));
            if tried >= self.lines {
                return Err(Error::from(ErrorKind::StorageFull));
            }
            let Ok(mut text) = self.text.try_borrow_mut() else {
                return Err(Error::from(ErrorKind::ResourceBusy));
            };
            write!(text, "{value}{end}")?;
            Ok(())
        }
    }

    impl Print for Room {
        fn print<D: Display + Drop>(&self, value: D) -> io::Result<()> {
            self.put(value, "")
        }

        fn println<D: Display + Drop>(&self, value: D) -> io::Result<()> {
            self.put(value, "\n")
        }

        fn write_all(&self, bytes: &[u8]) -> io::Result<()> {
            self.put(bytes.len(), " bytes")
        }
    }

    // With room for so many lines: what is answered, how many are tried, and what is printed.
    #[test]
    fn ends_at_the_first_that_is_not_printed(rt: HostRuntime) {
        let full = Some(ErrorKind::StorageFull);
        for (lines, error, tried, text) in [
            (0, full, 1, ""),
            (1, full, 2, FIRST),
            (2, None, 2, BOTH),
        ] {
            let room = Room::new(rt.alloc(), lines);
            let answer = replay_lines(&room);
            assert_eq!(rt; answer.err().map(|e| e.kind()), error, "room for {lines}");
            assert_eq!(rt; room.tried.get(), tried, "room for {lines}");
            assert_eq!(rt; room.text.into_inner().as_str(), text, "room for {lines}");
        }
    }

    #[test]
    fn tries_both(rt: HostRuntime) {
        for (lines, text) in [(0, ""), (1, FIRST), (2, BOTH)] {
            let room = Room::new(rt.alloc(), lines);
            replay_both_lines(&room);
            assert_eq!(rt; room.tried.get(), 2, "room for {lines}");
            assert_eq!(rt; room.text.into_inner().as_str(), text, "room for {lines}");
        }
    }
}
