//! The prompt, and the next line of the standard input.

use crate::fault::PromptFault;
use geos_cli::{MOST_BYTES, ScriptFault};
use geos_shell::{Reason, STANDARD, StreamFault, print};
use std::io::{BufRead, ErrorKind, IsTerminal, Read};

/// The most bytes that are read of a line, with its end: one more than a line may have.
const MOST_READ: u64 = MOST_BYTES as u64 + 1;

/// What precedes each line on a terminal.
const PROMPT: &[u8] = b"geos> ";

/// Whether a user types the lines.
pub(crate) fn is_typed(rt: &HostRuntime) -> bool {
    rt.stdin().is_terminal()
}

/// Asks for the next line, and reads it with its end; empty at the end of the input. `ScriptFault::TooLong` if the line has more than
/// 1,048,576 bytes.
pub(crate) fn ask<'a, R: BufRead + Drop>(
    rt: &HostRuntime,
    input: &mut R,
) -> Result<Vec<u8>, PromptFault<'a>> {
    if is_typed(rt) {
        print(rt, PROMPT)?;
    }
    let mut line = Vec::new(rt.alloc());
    match input.by_ref().take(MOST_READ).read_until(b'\n', &mut line) {
        Ok(_) if line.len() <= MOST_BYTES => Ok(line),
        Ok(_) => Err(PromptFault::Session(ScriptFault::TooLong)),
        Err(error) => Err(PromptFault::Stream(match error.kind() {
            ErrorKind::OutOfMemory => StreamFault::Memory,
            _ => StreamFault::Read(STANDARD, Reason::OTHER),
        })),
    }
}
