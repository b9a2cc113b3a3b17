//! The heap of a block.

ghost use Rattle.std.specs.Prelude.{◌<◌};

use crate::bytes::word;
use crate::pieces::put_piece_faults;
use crate::report::{Report, Subject};
use geos_text::Part;

/// One place for each four bytes of the largest block.
pub(crate) const PLACES: usize = 16_384;

/// The most entries of a table in a block.
const MOST_ENTRIES: usize = 32_752;

/// The entry of a chunk of no byte.
const NO_BYTE: usize = 0xffff;

/// The offset at which the table of a block ends.
pub(crate) fn table_end(block: &[u8]) -> usize
    ensures { result < 131088 }
{
    16 + 2 * word(block, 10)
}

/// Reports which words of the header are wrong, without those of free chunks.
fn put_header_faults(report: &mut Report, subject: Subject, block: &[u8]) {
    if word(block, 2) != 16 || word(block, 4) != 0 || word(block, 6) != 0 {
        let said = ": the words at 2, 4 and 6 of its heap are not 16, 0 and 0";
        report.put_of_block(subject, &[Part::Text(said)]);
    }
    let size = word(block, 8);
    if size != block.len() {
        report.put_of_block(
            subject,
            &[
                Part::Numbered(": its heap says the size ", size as u64),
                Part::Numbered(", and it has ", block.len() as u64),
            ],
        );
    }
    let entries = word(block, 10);
    if entries < 2 || entries % 2 != 0 {
        let said = Part::Numbered(": its table has ", entries as u64);
        report.put_of_block(
            subject,
            &[said, Part::Text(" entries, and not an even number from 2")],
        );
    }
}

/// What is wrong with the entry of a chunk in the table, if the chunk cannot lie there.
fn chunk_fault(block: &[u8], entry: usize) -> Option<&'static str> {
    if entry < table_end(block) + 2 {
        return Some(" lies in the header or the table");
    }
    if entry >= block.len() {
        return Some(" lies past the end of its heap");
    }
    if entry % 4 != 2 {
        return Some(" begins at no multiple of 4");
    }
    let size = word(block, entry - 2);
    if size < 3 {
        return Some(" has a size word below 3");
    }
    if entry - 2 + size > block.len() {
        return Some(" lies past the end of its heap");
    }
    None
}

/// Records the offset at which a chunk begins, or reports that another one begins there.
fn note_start(report: &mut Report, subject: Subject, starts: &mut [u16], chunk: u16, place: usize) {
    if place >= starts.len() {
        return;
    }
    let other = starts[place];
    if other == 0 {
        starts[place] = chunk;
        return;
    }
    report.put_of_block(
        subject,
        &[
            Part::Numbered(": chunks ", u64::from(other)),
            Part::Numbered(" and ", u64::from(chunk)),
            Part::Text(" begin at one byte"),
        ],
    )
}

/// Reports the entries of chunks that cannot lie at their offsets, and records
/// where the others begin: for each four bytes the handle of the chunk, or 0.
fn put_chunk_faults(report: &mut Report, subject: Subject, block: &[u8], starts: &mut [u16]) {
    for i in 0..word(block, 10).min(MOST_ENTRIES) {
        let chunk = (16 + 2 * i) as u16;
        let entry = word(block, usize::from(chunk));
        if entry == 0 || entry == NO_BYTE {
            continue;
        }
        match chunk_fault(block, entry) {
            Some(said) => report.put_of_block(
                subject,
                &[
                    Part::Numbered(": chunk ", u64::from(chunk)),
                    Part::Text(said),
                ],
            ),
            None => note_start(report, subject, starts, chunk, entry / 4),
        }
    }
}

/// Reports what is wrong with the bytes of a block, which are no heap.
pub(crate) fn put_heap_faults(report: &mut Report, subject: Subject, block: &[u8]) {
    let before = report.faults();
    put_header_faults(report, subject, block);
    if table_end(block) > block.len() {
        let said = ": its table lies past the end of its heap";
        return report.put_of_block(subject, &[Part::Text(said)]);
    }
    let mut starts = [0u16; PLACES];
    put_chunk_faults(report, subject, block, &mut starts);
    put_piece_faults(report, subject, block, &starts);
    if report.faults() == before {
        report.put_of_block(subject, &[Part::Text(": its bytes are no heap")]);
    }
}
