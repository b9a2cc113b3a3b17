//! What the entry and exit rows of a public routine say and may not say.

ghost use Rattle.std.specs.Prelude.{◌≡◌, ◌&&◌, not};
ghost use Rattle.geos_verify.specs.Rows.{is_empty};
ghost use Rattle.geos_explain.specs.Public.{own_only, own_slots, marked_only, marked_slots, held_pairs, known_pointers};
ghost use Rattle.geos_explain.specs.Public.{missing_only, missing_slots, kept_only, kept_slots, NoFaultsWhereItMayEnterAndLeave};

use crate::phrases::Phrase;
use crate::saying::Saying;
use geos_image::{Routine, Row, SlotState};
use geos_verify::is_empty;

/// The slot if it holds a block that is not borrowed, and otherwise an empty one.
fn own_only(state: SlotState) -> SlotState
    ensures { result ≡ own_only state }
{
    if state.is_own() {
        state
    } else {
        SlotState::Empty
    }
}

/// The slots of an entry row that hold blocks that are not borrowed.
fn own_slots(entry: &Row) -> Row
    ensures { result ≡ own_slots entry.now }
{
    let [s0, s1, s2, s3] = entry.slots;
    let mut own = Row::open();
    own.slots = [own_only(s0), own_only(s1), own_only(s2), own_only(s3)];
    own
}

/// The slot if it is borrowed and known to be marked, and otherwise an empty one.
fn marked_only(state: SlotState) -> SlotState
    ensures { result ≡ marked_only state }
{
    match state {
        SlotState::Vm {
            marked: true,
            borrowed: true,
        } => state,
        _ => SlotState::Empty,
    }
}

/// The slots of an entry row that are borrowed and known to be marked.
fn marked_slots(entry: &Row) -> Row
    ensures { result ≡ marked_slots entry.now }
{
    let [s0, s1, s2, s3] = entry.slots;
    let mut marked = Row::open();
    marked.slots = [
        marked_only(s0),
        marked_only(s1),
        marked_only(s2),
        marked_only(s3),
    ];
    marked
}

/// Whether slots a and b are known to hold different blocks.
fn differ_held(known: bool, a: SlotState, b: SlotState) -> bool
    ensures { result ≡ known && not (is_empty a) && not (is_empty b) }
{
    known && !is_empty(a) && !is_empty(b)
}

/// Such pairs of an entry row.
fn held_pairs(entry: &Row) -> Row
    ensures { result ≡ held_pairs entry.now }
{
    let [s0, s1, s2, s3] = entry.slots;
    let [p01, p02, p03, p12, p13, p23] = entry.pairs;
    let mut held = Row::open();
    held.pairs = [
        differ_held(p01, s0, s1),
        differ_held(p02, s0, s2),
        differ_held(p03, s0, s3),
        differ_held(p12, s1, s2),
        differ_held(p13, s1, s3),
        differ_held(p23, s2, s3),
    ];
    held
}

/// The pointers of which the row knows something.
fn known_pointers(row: &Row) -> Row
    ensures { result ≡ known_pointers row.now }
{
    let pointers = row.pointers;
    let mut known = Row::open();
    known.pointers = pointers;
    known
}

/// The slot if it is borrowed in the first row and not in the second, and otherwise an empty one.
fn missing_only(entry: SlotState, exit: SlotState) -> SlotState
    ensures { result ≡ missing_only entry exit }
{
    if !entry.is_own() && exit.is_own() {
        entry
    } else {
        SlotState::Empty
    }
}

/// The slots that the row has borrowed and the exit row has not.
fn missing_slots(row: &Row, exit: &Row) -> Row
    ensures { result ≡ missing_slots row.now exit.now }
{
    let mut missing = Row::open();
    missing.slots = zipped!(missing_only; row.slots, exit.slots; r0 x0, r1 x1, r2 x2, r3 x3);
    missing
}

/// The slot if it holds a block in the second row and is not borrowed in both, and otherwise an empty one.
fn kept_only(entry: SlotState, exit: SlotState) -> SlotState
    ensures { result ≡ kept_only entry exit }
{
    if entry.is_own() || exit.is_own() {
        exit
    } else {
        SlotState::Empty
    }
}

/// The slots that hold blocks in the exit row, other than those that are borrowed in both rows.
fn kept_slots(entry: &Row, exit: &Row) -> Row
    ensures { result ≡ kept_slots entry.now exit.now }
{
    let mut kept = Row::open();
    kept.slots = zipped!(kept_only; entry.slots, exit.slots; e0 x0, e1 x1, e2 x2, e3 x3);
    kept
}

/// Slots that the row has borrowed are missing in the exit row.
pub(crate) fn put_missing(out: &mut Saying, row: &Row, exit: &Row) {
    let missing = missing_slots(row, exit);
    out.put_also(&missing, Phrase::Nothing, Phrase::MissingInOut)
}

/// What the entry row requires that not every caller from outside has.
fn put_entry_faults(out: &mut Saying, entry: &Row) {
    out.put_also(&own_slots(entry), Phrase::InInLine, Phrase::NotBorrowed);
    out.put_also(
        &marked_slots(entry),
        Phrase::InInLine,
        Phrase::MarkedByNoCaller,
    );
    out.put_also(
        &held_pairs(entry),
        Phrase::InInLine,
        Phrase::NotEnsuredApart,
    );
    out.put_also(&known_pointers(entry), Phrase::InInLine, Phrase::NotPassed)
}

/// How a public routine begins and ends, and what the rows of this one say otherwise.
pub(crate) fn put_public(out: &mut Saying, routine: &Routine) {
    out.put(Phrase::PublicRoutine);
    put_entry_faults(out, &routine.entry);
    put_missing(out, &routine.entry, &routine.exit);
    let kept = kept_slots(&routine.entry, &routine.exit);
    out.put_also(&kept, Phrase::InOutLine, Phrase::NotBorrowedInBoth);
    out.put_also(
        &known_pointers(&routine.exit),
        Phrase::InOutLine,
        Phrase::NotTaken,
    )
}

/// Lemma: no fault is reported of the rows of a public routine exactly if a caller from outside may enter and leave by them.
pub fn rows_without_faults_may_be_public()
    ensures { NoFaultsWhereItMayEnterAndLeave }
{}
