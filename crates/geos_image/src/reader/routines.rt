//! The header and the routines.

ghost use Rattle.std.specs.Prelude.{◌≡◌, ◌<◌, ◌≤◌, ◌+◌, ◌^◌, length, take, true, false, IfOk, []};
ghost use Rattle.geos_image.specs.Parts.{total_count};
ghost use Rattle.geos_image.specs.Legal.{is_name, is_named, is_routine, are_routines};
ghost use Rattle.geos_image.specs.Reading.{name_at, count_at, routine_at, routines_at, header_at, Gives};

use crate::error::ReadError;
use crate::legal::{MOST_INSTRS, MOST_ROUTINES, is_name, is_named, total_count};
use crate::reader::numbers::{Fault, byte_below, long_at, word_at};
use crate::reader::rows::row_at;
use crate::routine::Routine;
use std::alloc::Global;

#[tactic(auto, unfolding(crate::specs::Reading::header_at))]
pub(crate) fn header_at(bytes: &[u8]) -> Result<(bool, u16), Fault>
    ensures exact { result ≡ header_at bytes.now }
    ensures legal { IfOk result (λ head. (0 < head.1) × (head.1 ≤ MOST_ROUTINES)) }
{
    if !bytes.starts_with(b"GRT1") {
        return Err(0);
    }
    let version = word_at(bytes, 4)?;
    if version != 1 && version != 2 {
        return Err(4);
    }
    let routines = word_at(bytes, 6)?;
    if routines > 0 && routines <= MOST_ROUTINES {
        Ok((version == 2, routines))
    } else {
        Err(6)
    }
}

/// The sixteen bytes of a name.
fn name_bytes(bytes: &[u8]) -> [u8; 16]
    requires { 16 ≤ length bytes.now }
    ensures { result ≡ take 16 bytes.now }
{
    let mut name = [0; 16];
    name.copy_from_slice(&bytes[..16]);
    name
}

#[tactic(auto, unfolding(crate::specs::Reading::name_at))]
fn name_at(earlier: &[Routine], bytes: &[u8], at: usize) -> Result<[u8; 16], Fault>
    requires { at < 2 ^ 28 }
    ensures exact { result ≡ name_at earlier.now bytes.now at }
    ensures legal { IfOk result (λ name. (is_name name ≡ true) × (is_named name earlier.now ≡ false)) }
{
    if bytes.len() < at + 16 {
        return Err(at);
    }
    let name = name_bytes(&bytes[at..]);
    if is_name(&name) && !is_named(&name, earlier) {
        Ok(name)
    } else {
        Err(at)
    }
}

#[tactic(auto, unfolding(crate::specs::Reading::count_at))]
fn count_at(earlier: &[Routine], bytes: &[u8], at: usize) -> Result<u16, Fault>
    requires place { at < 2 ^ 28 }
    requires few { length earlier.now ≤ MOST_ROUTINES }
    requires room { total_count earlier.now ≤ MOST_INSTRS }
    ensures exact { result ≡ count_at earlier.now bytes.now at }
    ensures legal { IfOk result (λ n. (0 < n) × (total_count earlier.now + n ≤ MOST_INSTRS)) }
{
    let count = word_at(bytes, at)?;
    if count > 0 && total_count(earlier) + u32::from(count) <= u32::from(MOST_INSTRS) {
        Ok(count)
    } else {
        Err(at)
    }
}

#[tactic(auto, unfolding(crate::specs::Reading::routine_at))]
fn routine_at(borrows: bool, earlier: &[Routine], bytes: &[u8], at: usize) -> Result<Routine, Fault>
    requires place { at < 2 ^ 27 }
    requires few { length earlier.now ≤ MOST_ROUTINES }
    requires room { total_count earlier.now ≤ MOST_INSTRS }
    ensures exact { result ≡ routine_at borrows earlier.now bytes.now at }
    ensures legal { IfOk result (λ r. (is_routine borrows earlier.now r ≡ true) × (total_count earlier.now + r.count ≤ MOST_INSTRS)) }
{
    let name = name_at(earlier, bytes, at)?;
    let public = byte_below(2, bytes, at + 16)? == 1;
    byte_below(1, bytes, at + 17)?;
    let count = count_at(earlier, bytes, at + 18)?;
    let budget = long_at(bytes, at + 20)?;
    let entry = row_at(borrows, bytes, at + 24)?;
    let exit = row_at(borrows, bytes, at + 62)?;
    Ok(Routine {
        name,
        public,
        count,
        budget,
        entry,
        exit,
    })
}

/// The routines. `borrows` says whether slots may be borrowed.
pub(crate) fn routines_at(
    alloc: Global,
    borrows: bool,
    bytes: &[u8],
    count: u16,
) -> Result<Vec<Routine>, ReadError>
    requires { count ≤ MOST_ROUTINES }
    ensures exact { Gives (λ v. v.items) result (routines_at borrows bytes.now count 8 []) }
    ensures legal { IfOk result (λ v. (are_routines borrows [] v.items ≡ true) × (length v.items ≡ count) × (total_count v.items ≤ MOST_INSTRS)) }
{
    let mut routines = Vec::new(alloc);
    let mut at = 8;
    for _ in 0..count {
        let routine = routine_at(borrows, &routines, bytes, at)?;
        routines.push(routine)?;
        at += 100;
    }
    Ok(routines)
}
