//! What is known of registers at a place, as a row.

ghost use Rattle.std.specs.Prelude.{◌≡◌, ◌<◌, map, true, length};
ghost use Rattle.geos_image.specs.Legal.{is_shaped, is_row};
ghost use Rattle.geos_verify.specs.Rows.{bound};
ghost use Rattle.geos_code.specs.Known.{row_of, without_empty, clean, IsLeastClean};

use geos_image::{Pointer, Row, SlotState, Table};
use geos_verify::leads_nowhere;

/// What is known at each pc.
pub type Known = Table<Option<Row>>;

/// Lemma: how long the lists of a row are.
fn lengths(
    bounds: &[u16; 8],
    slots: &[SlotState; 4],
    pointers: &[Option<Pointer>; 4],
    pairs: &[bool; 6],
)
    ensures bounds { length bounds.now ≡ 8 }
    ensures slots { length slots.now ≡ 4 }
    ensures pointers { length pointers.now ≡ 4 }
    ensures pairs { length pairs.now ≡ 6 }
{}

/// Lemma: each row has the shape that the format requires.
pub fn shape(row: &Row)
    ensures { is_shaped row.now ≡ true }
{
    lengths(&row.bounds, &row.slots, &row.pointers, &row.pairs);
}

fn without_empty(slots: &[SlotState; 4], pointer: Option<Pointer>) -> Option<Pointer>
    ensures { result ≡ without_empty slots.now pointer }
{
    if leads_nowhere(slots, pointer) {
        None
    } else {
        pointer
    }
}

fn pointers_without_empty(row: &Row) -> [Option<Pointer>; 4]
    ensures { result ≡ map (without_empty row.now.slots) row.now.pointers }
{
    let [p0, p1, p2, p3] = row.pointers;
    let slots = &row.slots;
    [
        without_empty(slots, p0),
        without_empty(slots, p1),
        without_empty(slots, p2),
        without_empty(slots, p3),
    ]
}

/// The row without pointers into empty slots: the least of the rows that it fits and that have
/// none.
pub fn clean(row: &Row) -> Row
    ensures value { result ≡ clean row.now }
    ensures least { IsLeastClean row.now result }
    ensures legal { is_row true result ≡ true }
{
    shape(row);
    Row {
        bounds: row.bounds,
        slots: row.slots,
        pointers: pointers_without_empty(row),
        pairs: row.pairs,
    }
}

/// What holds of the registers at a place that nothing reaches, at its strongest.
const STRONGEST: Row = Row {
    bounds: [0; 8],
    slots: [SlotState::Empty; 4],
    pointers: [None; 4],
    pairs: [true; 6],
};

/// The row at a place where this much is known.
pub fn row_of(known: &Option<Row>) -> Row
    ensures value { result ≡ row_of known.now }
    ensures legal { is_row true result ≡ true }
{
    match known {
        None => STRONGEST,
        Some(row) => clean(row),
    }
}

/// The bound of a word; a row has no other word.
pub fn bound_of(row: &Row, word: u8) -> u16
    ensures { word < 8 → result ≡ bound row.now word }
{
    match row.bounds.get(usize::from(word)) {
        Some(bound) => *bound,
        None => u16::MAX,
    }
}
