//! Rows and potentials.

ghost use Rattle.std.specs.Prelude.{◌≡◌, ◌<◌, ◌≤◌, ◌^◌, ◌&&◌, ◌||◌, ◌==◌, not, IfOk, Ok, true};
ghost use Rattle.std.specs.List.{list_all};
ghost use Rattle.geos_image.specs.Legal.{is_own, is_pointer, is_row};
ghost use Rattle.geos_image.specs.Repeats.{are_same};
ghost use Rattle.geos_image.specs.Reading.{word_at, long_at, slot_at, pointer_at, pairs_of, items_at, row_at, potential_at, Puts};

use crate::potential::Potential;
use crate::reader::numbers::{Fault, byte_at, byte_below, long_at, word_at, word_below};
use crate::row::{Pointer, Row, SlotState};

#[tactic(auto, unfolding(crate::specs::Reading::slot_at))]
#[inline(always)]
fn slot_at(borrows: bool, bytes: &[u8], at: usize) -> Result<SlotState, Fault>
    ensures exact { result ≡ slot_at borrows bytes.now at }
    ensures legal { IfOk result (λ s. (borrows || is_own s) ≡ true) }
{
    SlotState::from_code(borrows, byte_at(bytes, at)?).ok_or(at)
}

/// The bytes of a row.
pub(crate) const ROW_LEN: usize = 38;

/// The bytes of a potential.
const POTENTIAL_LEN: usize = 20;

/// The slot byte of a pointer that is stale.
const STALE: u8 = 0xff;

#[tactic(auto, unfolding(crate::specs::Reading::pointer_at))]
#[inline(always)]
fn pointer_at(bytes: &[u8], at: usize) -> Result<Option<Pointer>, Fault>
    requires { at < 2 ^ 31 }
    ensures exact { result ≡ pointer_at bytes.now at }
    ensures legal { IfOk result (λ p. is_pointer p ≡ true) }
{
    let slot = byte_at(bytes, at)?;
    if slot == STALE {
        byte_below(1, bytes, at + 1)?;
        word_below(1, bytes, at + 2)?;
        Ok(None)
    } else if slot < 4 {
        byte_below(1, bytes, at + 1)?;
        let least = word_below(65_536, bytes, at + 2)?;
        Ok(Some(Pointer { slot, least }))
    } else {
        Err(at)
    }
}

fn pairs_of(byte: u8) -> [bool; 6]
    ensures { result ≡ pairs_of byte }
{
    [
        byte % 2 == 1,
        byte / 2 % 2 == 1,
        byte / 4 % 2 == 1,
        byte / 8 % 2 == 1,
        byte / 16 % 2 == 1,
        byte / 32 % 2 == 1,
    ]
}

#[inline(always)]
fn bounds_at(bytes: &[u8], at: usize) -> Result<[u16; 8], Fault>
    requires { at < 2 ^ 31 }
    ensures { result ≡ items_at (word_at bytes.now) 2 8 at }
{
    Ok([
        word_at(bytes, at)?,
        word_at(bytes, at + 2)?,
        word_at(bytes, at + 4)?,
        word_at(bytes, at + 6)?,
        word_at(bytes, at + 8)?,
        word_at(bytes, at + 10)?,
        word_at(bytes, at + 12)?,
        word_at(bytes, at + 14)?,
    ])
}

#[inline(always)]
fn slots_at(borrows: bool, bytes: &[u8], at: usize) -> Result<[SlotState; 4], Fault>
    requires { at < 2 ^ 31 }
    ensures exact { result ≡ items_at (slot_at borrows bytes.now) 1 4 at }
    ensures legal { IfOk result (λ slots. (borrows || list_all is_own slots) ≡ true) }
{
    Ok([
        slot_at(borrows, bytes, at)?,
        slot_at(borrows, bytes, at + 1)?,
        slot_at(borrows, bytes, at + 2)?,
        slot_at(borrows, bytes, at + 3)?,
    ])
}

#[inline(always)]
fn pointers_at(bytes: &[u8], at: usize) -> Result<[Option<Pointer>; 4], Fault>
    requires { at < 2 ^ 30 }
    ensures exact { result ≡ items_at (pointer_at bytes.now) 4 4 at }
    ensures legal { IfOk result (λ ps. list_all is_pointer ps ≡ true) }
{
    Ok([
        pointer_at(bytes, at)?,
        pointer_at(bytes, at + 4)?,
        pointer_at(bytes, at + 8)?,
        pointer_at(bytes, at + 12)?,
    ])
}

#[tactic(auto, unfolding(crate::specs::Reading::row_at))]
#[inline(always)]
fn fields_at(borrows: bool, bytes: &[u8], at: usize) -> Result<Row, Fault>
    requires { at < 2 ^ 29 }
    ensures exact { result ≡ row_at borrows bytes.now at }
    ensures legal { IfOk result (λ r. is_row borrows r ≡ true) }
{
    let bounds = bounds_at(bytes, at)?;
    let slots = slots_at(borrows, bytes, at + 16)?;
    let pointers = pointers_at(bytes, at + 20)?;
    let pairs = pairs_of(byte_below(64, bytes, at + 36)?);
    byte_below(1, bytes, at + 37)?;
    Ok(Row {
        bounds,
        slots,
        pointers,
        pairs,
    })
}

/// A row, which may be cut.
#[cold]
#[inline(never)]
fn row_at_end(borrows: bool, bytes: &[u8], at: usize) -> Result<Row, Fault>
    requires { at < 2 ^ 29 }
    ensures exact { result ≡ row_at borrows bytes.now at }
    ensures legal { IfOk result (λ r. is_row borrows r ≡ true) }
{
    fields_at(borrows, bytes, at)
}

/// A row. `borrows` says whether its slots may be borrowed. The length is tested once: a number of 32 bits is one of which
/// LLVM knows that no sum wraps.
// With the cut row taken out of what its call returns: so the row is made in registers, and not byte by byte in memory
// that is then read by words.
#[inline(never)]
pub(crate) fn row_at(borrows: bool, bytes: &[u8], at: usize) -> Result<Row, Fault>
    requires { at < 2 ^ 29 }
    ensures exact { result ≡ row_at borrows bytes.now at }
    ensures legal { IfOk result (λ r. is_row borrows r ≡ true) }
{
    let at = at as u32 as usize;
    if bytes.len() < at + ROW_LEN {
        let row = row_at_end(borrows, bytes, at)?;
        return Ok(row);
    }
    fields_at(borrows, bytes, at)
}

/// Whether both offsets have the bytes of a row, and these are the same.
#[inline(always)]
fn are_same(bytes: &[u8], before: usize, at: usize) -> bool
    requires order { before ≤ at }
    requires place { at < 2 ^ 28 }
    ensures { result ≡ are_same bytes.now before at }
{
    at + ROW_LEN <= bytes.len() && bytes[before..before + ROW_LEN] == bytes[at..at + ROW_LEN]
}

/// Makes `row` the one at offset `at`. If `before` is another offset, `row` is the one there: it is read anew only if the bytes
/// differ, which between two instructions they mostly don't. Returns whether `row` stayed.
#[inline(always)]
pub(crate) fn row_like(
    borrows: bool,
    bytes: &[u8],
    before: usize,
    at: usize,
    row: &mut Row,
) -> Result<bool, Fault>
    requires order { before ≤ at }
    requires place { at < 2 ^ 28 }
    requires known { before < at → row_at borrows bytes.now before ≡ Ok row.old }
    requires fine { before < at → is_row borrows row.old ≡ true }
    ensures exact { Puts result row.new (row_at borrows bytes.now at) }
    ensures legal { IfOk result (λ known. is_row borrows row.new ≡ true) }
    ensures value { IfOk result (λ known. known ≡ (not (before == at) && are_same bytes.now before at)) }
    ensures known { IfOk result (λ known. known ≡ true → (before < at) × (row.new ≡ row.old)) }
{
    if before == at || !are_same(bytes, before, at) {
        *row = row_at(borrows, bytes, at)?;
        return Ok(false);
    }
    Ok(true)
}

/// The numbers of a potential.
// All at once: of a `Result` with only the coefficients LLVM makes the potential by pieces in memory.
#[tactic(auto, unfolding(crate::specs::Reading::potential_at))]
#[inline(always)]
fn numbers_at(bytes: &[u8], at: usize) -> Result<Potential, Fault>
    requires { at < 2 ^ 29 }
    ensures { result ≡ potential_at bytes.now at }
{
    Ok(Potential {
        constant: long_at(bytes, at)?,
        coefficients: [
            long_at(bytes, at + 4)?,
            long_at(bytes, at + 8)?,
            long_at(bytes, at + 12)?,
            long_at(bytes, at + 16)?,
        ],
    })
}

/// A potential, which may be cut.
#[cold]
#[inline(never)]
fn potential_at_end(bytes: &[u8], at: usize) -> Result<Potential, Fault>
    requires { at < 2 ^ 29 }
    ensures { result ≡ potential_at bytes.now at }
{
    numbers_at(bytes, at)
}

/// A potential, read as a row is.
#[inline(always)]
pub(crate) fn potential_at(bytes: &[u8], at: usize) -> Result<Potential, Fault>
    requires { at < 2 ^ 29 }
    ensures { result ≡ potential_at bytes.now at }
{
    let at = at as u32 as usize;
    if bytes.len() < at + POTENTIAL_LEN {
        let potential = potential_at_end(bytes, at)?;
        return Ok(potential);
    }
    numbers_at(bytes, at)
}
