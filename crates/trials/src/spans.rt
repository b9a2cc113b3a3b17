//! Calls through spans. Each begins with the `deref` or the `caelt` that gives the span.

ghost use Rattle.geos_kernel.specs.Spans.{IsStanding, IsWritable};
ghost use Rattle.geos_kernel.specs.View.{IsLocked, MayChange};

use crate::Answer;
use crate::calls::{NOT_LOCKED, NOT_MARKED, block_of, may_change};
use geos_kernel::{Kernel, Refer, Span};
use geos_terms::{Name, Refusal};
use std::alloc::{AllocError, Global};
use trial_lines::{Line, Runs, told};
use vm_file::Device;

/// What keeps bytes from being read or written that a span has not.
const PAST_THE_SPAN: &str = "past the span";

/// Makes a call that begins with a span of a locked block.
pub(crate) fn span_call<D: Device + Drop>(
    kernel: &mut Kernel<D>,
    name: Name,
    word: &str,
    line: &Line<'_>,
) -> Answer
    requires { IsLocked kernel.old.core name }
{
    let [_, c, second, third, fourth, ..] = line.words();
    let (refer, word, at, value) = match word.strip_prefix("caelt_") {
        Some(word) => {
            let (i, n) = (second, 0);
            (Refer::Caelt { c, i, n }, word, third, fourth)
        }
        None => (Refer::Deref { c, n: 0 }, word, second, third),
    };
    match kernel.refer(name, refer) {
        Ok(span) => match word {
            "load8" | "load16" => load(kernel, span, word, at),
            _ if may_change(kernel, name) => store(kernel, span, word, at, value),
            _ => Answer::NotAsked(NOT_MARKED),
        },
        Err(refusal) => Answer::Refused(refusal),
    }
}

/// How many bytes a span has.
pub(crate) fn length(given: Result<Span, Refusal>) -> Answer {
    match given {
        Ok(span) => Answer::Number(u32::from(span.len)),
        Err(refusal) => Answer::Refused(refusal),
    }
}

/// Copies to the beginning of a chunk from that of another one so many bytes, by the numbers of a line.
pub(crate) fn copy<D: Device + Drop>(
    kernel: &mut Kernel<D>,
    name: Name,
    numbers: [u16; 3],
) -> Result<(), Refusal>
    requires locked { IsLocked kernel.old.core name }
    requires marked { MayChange kernel.old.core name }
{
    let [target, source, n] = numbers;
    let to = kernel.refer(name, Refer::Deref { c: target, n })?;
    let from = kernel.refer(name, Refer::Deref { c: source, n })?;
    kernel.copy(to, from, n);
    Ok(())
}

/// Reads at an offset of a span.
fn load<D: Device + Drop>(kernel: &Kernel<D>, span: Span, word: &str, at: u16) -> Answer
    requires { IsStanding kernel.now.core span }
{
    let left = span.len.saturating_sub(at);
    match word {
        "load8" if left > 0 => Answer::Number(u32::from(kernel.load8(span, at))),
        "load16" if left > 1 => Answer::Number(u32::from(kernel.load16(span, at))),
        _ => Answer::NotAsked(PAST_THE_SPAN),
    }
}

/// Writes at an offset of a span.
fn store<D: Device + Drop>(
    kernel: &mut Kernel<D>,
    span: Span,
    word: &str,
    at: u16,
    value: u16,
) -> Answer
    requires { IsWritable kernel.old.core span }
{
    let left = span.len.saturating_sub(at);
    match word {
        "store8" if left > 0 => kernel.store8(span, at, value.min(255) as u8),
        "store16" if left > 1 => kernel.store16(span, at, value),
        _ => return Answer::NotAsked(PAST_THE_SPAN),
    }
    Answer::Done
}

/// All bytes of a chunk.
pub(crate) fn bytes<D: Device + Drop>(
    alloc: Global,
    kernel: &Kernel<D>,
    line: &Line<'_>,
) -> Result<Answer, AllocError> {
    let (name, _) = block_of(line);
    if kernel.locks(name) == 0 {
        return Ok(Answer::NotAsked(NOT_LOCKED));
    }
    match kernel.deref(name, line.word_at(1), 0) {
        Ok(span) => told(alloc, Runs(&bytes_of(alloc, kernel, span)?)),
        Err(refusal) => Ok(Answer::Refused(refusal)),
    }
}

/// The bytes of a span.
pub(crate) fn bytes_of<D: Device + Drop>(
    alloc: Global,
    kernel: &Kernel<D>,
    span: Span,
) -> Result<Vec<u8>, AllocError>
    requires { IsStanding kernel.now.core span }
{
    let mut bytes = Vec::new(alloc);
    for at in 0..span.len {
        bytes.push(kernel.load8(span, at))?;
    }
    Ok(bytes)
}
