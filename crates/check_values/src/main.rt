// Prints the length and the checksum of each message that it reads. A message is its length in two bytes, the high byte first, and then its
// bytes. make_vectors.py writes the messages, and what is to be printed, by a division bit by bit.
#![tactic(auto)]

ghost use Rattle.std.specs.Prelude.{◌<◌, ◌≤◌, length, IfSome};

use std::io::{ErrorKind, Read};

// What is read of the input, in bytes.
const LIMIT: usize = 65_536;

// Fills the buffer from its front until it is full, or the reader is at its end or fails; answers how much of it is filled. A read that a signal
// cut off is made again.
fn read_full(mut reader: impl Read + Drop, buffer: &mut [u8]) -> usize
    ensures { result ≤ length buffer.new }
{
    let mut filled = 0;
    for _ in 0..u64::MAX {
        if filled == buffer.len() {
            break;
        }
        match reader.read(&mut buffer[filled..]) {
            Ok(0) => break,
            Ok(n) => filled += n,
            Err(error) if error.kind() == ErrorKind::Interrupted => {}
            Err(_) => break,
        }
    }
    filled
}

// The first message, and the input behind it; none where the input cuts it short.
fn split_message(input: &[u8]) -> Option<(&[u8], &[u8])>
    ensures { IfSome result (λ p. length p.1.now < length input.now) }
{
    let (&length, rest) = input.split_first_chunk()?;
    rest.split_at_checked(usize::from(u16::from_be_bytes(length)))
}

// The line of a message, in four parts. A part that cannot be printed is let go, and the next is tried.
fn print_message(rt: &impl Print, message: &[u8]) {
    let _ = print!(rt; "{}", message.len());
    let _ = rt.write_all(b" ");
    let _ = print!(rt; "{:04x}", sealing::crc16_checksum(message));
    let _ = rt.write_all(b"\n");
}

// One message after the other. A message that the input cuts short is left out.
fn print_messages(rt: &impl Print, input: &[u8]) {
    let mut left = input;
    while let Some((message, rest)) = split_message(left) {
        print_message(rt, message);
        left = rest;
    }
}

// Where it cannot read on it prints what it has read, and where it cannot print it goes on; either way it ends as ever.
fn main(rt: HostRuntime) {
    let mut input = [0; LIMIT];
    let n = read_full(rt.stdin(), &mut input);
    print_messages(&rt, &input[..n]);
}
