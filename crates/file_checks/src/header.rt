//! The header of a file.

ghost use Rattle.std.specs.Prelude.{◌≤◌, IfSome};

use crate::bytes::word;
use crate::report::Report;
use geos_text::Part;

/// How many bytes header and selector have.
pub(crate) const HEADER: usize = 513;

/// The least and the greatest size of an area.
const LEAST_AREA: u32 = 512;

const MOST_AREA: u32 = 16_777_216;

/// Reports the first of the bytes from 12 to 511 that is not 0.
fn put_unused_fault(report: &mut Report, header: &[u8; HEADER]) {
    for at in 12..512usize {
        if header[at] != 0 {
            return report.put(
                Part::Numbered("byte ", at as u64),
                &[Part::Text(" is not 0")],
            );
        }
    }
}

/// Reports what is wrong with the header, and returns the size of an area if it is legal.
pub(crate) fn put_header_faults(report: &mut Report, header: &[u8; HEADER]) -> Option<u32>
    ensures { IfSome result (λ size. size ≤ 16777216) }
{
    if !header.starts_with(b"GVM1") {
        report.put(Part::Text("it does not begin with GVM1"), &[]);
    }
    if word(header, 4) != 1 || word(header, 6) != 0 {
        report.put(Part::Text("its version is not 1"), &[]);
    }
    put_unused_fault(report, header);
    let size = u32::from_le_bytes([header[8], header[9], header[10], header[11]]);
    if size < LEAST_AREA || size > MOST_AREA || size % LEAST_AREA != 0 {
        report.put(
            Part::Numbered("its area size is ", u64::from(size)),
            &[Part::Text(", and not a multiple of 512 from 512 to 16777216")],
        );
        return None;
    }
    Some(size)
}
