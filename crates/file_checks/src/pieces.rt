//! The chunks and the free chunks of a heap, one after another.

use crate::bytes::word;
use crate::heaps::{PLACES, table_end};
use crate::report::{Report, Subject};
use geos_text::Part;

/// A chunk that begins at a place, or 0.
fn start_at(starts: &[u16], place: usize) -> u16 {
    match starts.get(place) {
        Some(chunk) => *chunk,
        None => 0,
    }
}

/// Reports the chunks that begin within the bytes between two offsets.
fn put_overlaps(report: &mut Report, subject: Subject, starts: &[u16], at: usize, end: usize) {
    for place in at / 4 + 1..end / 4 {
        let chunk = start_at(starts, place);
        if chunk != 0 {
            report.put_of_block(
                subject,
                &[
                    Part::Numbered(": chunk ", u64::from(chunk)),
                    Part::Numbered(" overlaps what begins at ", at as u64),
                ],
            );
        }
    }
}

/// The offset at which the next piece begins, after bytes that are in none.
fn gap_end(starts: &[u16], at: usize, free: usize, len: usize) -> usize {
    for place in at / 4 + 1..PLACES {
        let here = 4 * place;
        if here >= len {
            return len;
        }
        if here == free || start_at(starts, place) != 0 {
            return here;
        }
    }
    len
}

/// How far a walk through a heap has come.
#[derive(Drop)]
struct Walk {
    at: usize,
    /// The offset of the next free chunk, or 0.
    free: usize,
    /// The bytes of the free chunks before it.
    sum: usize,
}

impl Walk {
    /// Steps over the free chunk at the current offset, and reports its faults. False if the walk cannot continue.
    fn pass_free(&mut self, report: &mut Report, subject: Subject, block: &[u8]) -> bool {
        let (size, next) = (word(block, self.at), word(block, self.at.saturating_add(2)));
        let end = self.at.saturating_add(size);
        let here = Part::Numbered(": the free chunk at ", self.at as u64);
        if size == 0 || size % 4 != 0 {
            let said = Part::Numbered(" has the size ", size as u64);
            report.put_of_block(subject, &[here, said]);
            return false;
        }
        if end > block.len() {
            let said = Part::Text(" lies past the end of its heap");
            report.put_of_block(subject, &[here, said]);
            return false;
        }
        if next == end {
            let said = Part::Numbered(" touches the one at ", next as u64);
            report.put_of_block(subject, &[here, said]);
        }
        self.at = end;
        self.free = next;
        self.sum = self.sum.saturating_add(size);
        true
    }

    /// Reports the bytes up to an offset, which are in no chunk, and passes them.
    fn pass_gap(&mut self, report: &mut Report, subject: Subject, end: usize) {
        report.put_of_block(
            subject,
            &[
                Part::Numbered(": the bytes from ", self.at as u64),
                Part::Numbered(" to ", end as u64),
                Part::Text(" are in no chunk"),
            ],
        );
        self.at = end;
    }

    /// Reports the words of the header that do not match the free chunks of the walk.
    fn put_end_faults(&self, report: &mut Report, subject: Subject, block: &[u8]) {
        if self.free != 0 {
            report.put_of_block(
                subject,
                &[Part::Numbered(": no free chunk begins at ", self.free as u64)],
            );
        }
        let total = word(block, 14);
        if self.sum != total {
            report.put_of_block(
                subject,
                &[
                    Part::Numbered(": its heap says that ", total as u64),
                    Part::Numbered(" bytes are free, and ", self.sum as u64),
                    Part::Text(" are"),
                ],
            );
        }
    }
}

/// Reports what is wrong with the chunks and free chunks after the table. `starts` has, by each four bytes, the handle of the chunk that
/// begins there, or 0.
pub(crate) fn put_piece_faults(
    report: &mut Report,
    subject: Subject,
    block: &[u8],
    starts: &[u16],
) {
    let mut walk = Walk {
        at: table_end(block) / 4 * 4,
        free: word(block, 12),
        sum: 0,
    };
    for _ in 0..PLACES {
        if walk.at >= block.len() {
            break;
        }
        let from = walk.at;
        if start_at(starts, from / 4) != 0 {
            walk.at = from.saturating_add(word(block, from) + 3) / 4 * 4;
        } else if from != walk.free {
            let end = gap_end(starts, from, walk.free, block.len());
            walk.pass_gap(report, subject, end);
        } else if !walk.pass_free(report, subject, block) {
            return;
        }
        put_overlaps(report, subject, starts, from, walk.at);
    }
    walk.put_end_faults(report, subject, block)
}
