//! Messages on a stream. Each follows a header, in which a line `Content-Length: N` has its number of bytes.

use std::alloc::Global;
use std::io::{self, BufRead, Read};

/// The most lines of a header.
const MOST_LINES: usize = 64;

/// The most bytes of a line of a header.
const MOST_LINE: u64 = 1_024;

/// The most bytes of a message.
const MOST_MESSAGE: u64 = 16_777_216;

/// What a stream has next.
#[derive(Drop)]
pub(crate) enum Incoming {
    /// The bytes of a message.
    Message(Vec<u8>),
    /// The end of the stream, perhaps within a message.
    End,
    /// No header of a message, or the header of one that is too long.
    Malformed,
}

/// The number of bytes that a line of a header names, if it names one.
fn length_in(line: &[u8]) -> Option<u64> {
    let (name, number) = std::str::from_utf8(line).ok()?.split_once(":")?;
    if name.eq_ignore_ascii_case("Content-Length") {
        number.trim().parse().ok()
    } else {
        None
    }
}

/// Reads a line with its end. Nothing at the end of the stream.
fn read_line<R: BufRead + Drop>(input: &mut R, line: &mut Vec<u8>) -> io::Result<()> {
    line.clear();
    input.by_ref().take(MOST_LINE).read_until(b'\n', line)?;
    Ok(())
}

/// Reads a message of so many bytes.
fn read_body<R: BufRead + Drop>(alloc: Global, input: &mut R, length: u64) -> io::Result<Incoming> {
    let mut body = Vec::new(alloc);
    input.by_ref().take(length).read_to_end(&mut body)?;
    if (body.len() as u64) < length {
        return Ok(Incoming::End);
    }
    Ok(Incoming::Message(body))
}

/// Reads the next message. An error is one of the stream.
pub(crate) fn read_message<R: BufRead + Drop>(
    alloc: Global,
    input: &mut R,
) -> io::Result<Incoming> {
    let mut line = Vec::new(alloc);
    let mut length = None;
    for _ in 0..MOST_LINES {
        read_line(input, &mut line)?;
        if line.is_empty() {
            return Ok(Incoming::End);
        }
        if line.trim_ascii().is_empty() {
            return match length {
                Some(length) if length <= MOST_MESSAGE => read_body(alloc, input, length),
                _ => Ok(Incoming::Malformed),
            };
        }
        if let Some(number) = length_in(&line) {
            length = Some(number);
        }
    }
    Ok(Incoming::Malformed)
}
