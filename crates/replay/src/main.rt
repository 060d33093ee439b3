// Replays two lines of frames, then fixed calls of the frame stage, the strict reader, the record writer and the checksum, and compares what they leave.
#![tactic(auto)]

ghost use Rattle.std.specs.Prelude.{◌≤◌, length};

use self::frames::stage_case;
use self::kind::Kind;
use self::records::{check_case, read_case, write_case};
use replay_lines::replay_both_lines;
use replay_vectors::cursor::Cursor;
use replay_vectors::outcome::{Outcome, Tally, Verdict};
use std::fs::File;
use std::io::{ErrorKind, Read};
use std::rt::Files;

mod frames;
mod kind;
mod lent;
mod records;

// What is read of a file, in bytes.
const LIMIT: usize = 131_072;

// Runs the call that a case's body says. A kind that there is not is damage.
fn run_case(kind: u32, body: Cursor<'_>) -> Outcome {
    match Kind::try_from(kind) {
        Ok(Kind::Stage) => stage_case(body),
        Ok(Kind::Read) => read_case(body),
        Ok(Kind::Write) => write_case(body),
        Ok(Kind::Check) => check_case(body),
        Err(_) => Outcome::not_run(Verdict::Damaged),
    }
}

// Runs the case that stands next, and says its line.
fn replay_case(rt: &impl Print, data: &mut Cursor<'_>, number: u32) -> Verdict {
    let kind = data.word();
    let outcome = run_case(kind, Cursor::new(data.counted_bytes()));
    let _ = println!(rt; "case {number} kind {kind} {outcome}");
    outcome.verdict
}

// Every case behind the head; the first damaged one ends it.
fn replay_cases(rt: &impl Print, data: &mut Cursor<'_>, tally: &mut Tally) {
    for number in 0..data.word() {
        let verdict = replay_case(rt, data, number);
        tally.add(verdict);
        if verdict == Verdict::Damaged {
            break;
        }
    }
}

// The head: mark, version and number of cases. Where it is wrong, the path is written apart from the rest of the line, and each is tried.
fn replay_data(rt: &impl Print, path: &str, data: &[u8], tally: &mut Tally) {
    let mut data = Cursor::new(data);
    if data.word() != u32::from_le_bytes(*b"HCAV") {
        let _ = print!(rt; "{path}");
        let _ = println!(rt; " damaged: no file of vectors");
        return tally.add(Verdict::Damaged);
    }
    let version = data.word();
    if version != 1 {
        let _ = print!(rt; "{path}");
        let _ = println!(rt; " damaged: its version is not 1 but {version}");
        return tally.add(Verdict::Damaged);
    }
    replay_cases(rt, &mut data, tally);
}

// Fills the buffer from its front until it is full, or the reader is at its end or fails; answers how much of it is filled. A read that a signal
// cut off is made again.
fn read_full(mut reader: impl Read + Drop, buffer: &mut [u8]) -> usize
    ensures { result ≤ length buffer.new }
{
    let mut filled = 0;
    for _ in 0..u64::MAX {
        if filled == buffer.len() {
            break;
        }
        match reader.read(&mut buffer[filled..]) {
            Ok(0) => break,
            Ok(n) => filled += n,
            Err(error) if error.kind() == ErrorKind::Interrupted => {}
            Err(_) => break,
        }
    }
    filled
}

// Where it cannot be read on, what was read of it is run. It is closed before that.
fn replay_file<R: Files<File = File> + Print + Eprint>(rt: &R, path: &str, tally: &mut Tally) {
    match File::open(rt, path) {
        Ok(file) => {
            let mut data = [0; LIMIT];
            let n = read_full(file, &mut data);
            replay_data(rt, path, &data[..n], tally);
        }
        Err(error) => {
            let _ = eprintln!(rt; "{path}: {error}");
            tally.add(Verdict::Damaged);
        }
    }
}

// Where it cannot print it goes on, and it ends as ever.
fn main(rt: HostRuntime) {
    let mut tally = Tally::default();
    replay_both_lines(&rt);
    replay_file(&rt, "stage.vec", &mut tally);
    replay_file(&rt, "records.vec", &mut tally);
    let _ = println!(rt; "{tally}");
}
