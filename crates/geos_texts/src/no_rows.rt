//! Why no rows are found for a routine.

use geos_explain::explain_cause;
use geos_flow::Cause;
use geos_lines::tell_many_steps;
use geos_source::Parsed;
use std::alloc::{AllocError, Global};

/// Why no rows are found for the routine of a text that begins on a line, in a line.
pub(crate) fn why_no_rows(
    alloc: Global,
    line: usize,
    cause: &Cause,
    parsed: &Parsed,
) -> Result<Vec<u8>, AllocError> {
    match tell_many_steps(alloc, parsed, line, cause)? {
        Some(told) => Ok(told),
        None => explain_cause(alloc, &parsed.lines, &parsed.instrs, cause),
    }
}
