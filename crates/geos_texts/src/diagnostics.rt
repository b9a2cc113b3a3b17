//! Diagnostics on texts without an image.

use crate::no_rows::why_no_rows;
use geos_asm::{Unassembled, assemble_or_tell};
use geos_lines::diagnose_faults;
use std::alloc::{AllocError, Global};

/// Why the text FILE has no image, as diagnostics: `FILE:LINE:COLUMN: error: ..` for each faulty line, or `FILE:LINE: error: no rows: ..` for
/// the routine that begins on that line. Empty if it has one.
pub(crate) fn of_text(alloc: Global, file: &str, text: &[u8]) -> Result<Vec<u8>, AllocError> {
    if text.starts_with(b"GVM1") {
        let told = format!(in alloc;
            "{file}:1: error: this is a VM file, and no text: geos dump shows it\n"
        )?;
        return Ok(told.into_bytes());
    }
    match assemble_or_tell(alloc, text) {
        Ok(_assembled) => Ok(Vec::new(alloc)),
        Err(Unassembled::BadLine(_)) => diagnose_faults(alloc, file, text),
        Err(Unassembled::NoRows(line, cause, parsed)) => {
            let mut told = format!(in alloc; "{file}:{line}: error: no rows: ")?.into_bytes();
            told.extend_from_slice(&why_no_rows(alloc, line, &cause, &parsed)?)?;
            Ok(told)
        }
        Err(Unassembled::Memory) => Err(AllocError),
    }
}
