//! Whether two files have the same pair.

ghost use Rattle.std.specs.Prelude.{◌≡◌, ◌<◌, ◌+◌, length, true, IfOk, IsTrue, slice_index_or};
ghost use Rattle.geos_dump.specs.Sides.{IsOnlyRead, contents_on, no_block};
ghost use Rattle.vm_file.specs.State.{pair_of};
ghost use Rattle.geos_dump.specs.Copies.{copied};

use crate::copy_error::Fault;
use crate::sides::{Side, count, directory, entry_at, read_block};
use crate::spelling::zeros;
use std::alloc::Global;
use vm_file::{Device, Disk, VmFile};

/// The sides of two files.
#[derive(Clone, Copy)]
struct Sides {
    one: Side,
    other: Side,
}

/// Whether two slices have the same bytes.
fn are_same(one: &[u8], other: &[u8]) -> bool
    ensures { IsTrue result → one.now ≡ other.now }
{
    one == other
}

/// Whether both files have the same block under a number.
fn same_block<D: Device + Drop, E: Device + Drop>(
    alloc: Global,
    one: &mut VmFile<D>,
    other: &mut VmFile<E>,
    sides: Sides,
    i: usize,
) -> Result<bool, Fault>
    requires in_one { i < length (contents_on sides.one (pair_of D.medium.image one.old)).blocks }
    requires in_other { i < length (contents_on sides.other (pair_of E.medium.image other.old)).blocks }
    ensures same { D.medium.honest one.old.device → E.medium.honest other.old.device → IfOk result (λ b. b ≡ true
        → slice_index_or (contents_on sides.one (pair_of D.medium.image one.old)).blocks i no_block
        ≡ slice_index_or (contents_on sides.other (pair_of E.medium.image other.old)).blocks i no_block) }
    ensures one_read { IsOnlyRead D.medium one.old one.new }
    ensures other_read { IsOnlyRead E.medium other.old other.new }
{
    let (entry, copy) = (entry_at(one, sides.one, i), entry_at(other, sides.other, i));
    if entry.h != copy.h || entry.uid != copy.uid || entry.len != copy.len {
        return Ok(false);
    }
    let (Ok(mut here), Ok(mut there)) = (
        zeros(alloc, usize::from(entry.len)),
        zeros(alloc, usize::from(copy.len)),
    ) else {
        return Err(Fault::Memory);
    };
    match read_block(one, sides.one, entry.h, &mut here) {
        Ok(()) => {}
        Err(Disk) => return Err(Fault::Disk),
    }
    match read_block(other, sides.other, copy.h, &mut there) {
        Ok(()) => Ok(are_same(&here, &there)),
        Err(Disk) => Err(Fault::Disk),
    }
}

/// Whether both files have the same number of blocks, map block and map item.
fn same_maps<D: Device + Drop, E: Device + Drop>(
    one: &VmFile<D>,
    other: &VmFile<E>,
    sides: Sides,
) -> bool
    ensures count { IsTrue result → length (contents_on sides.one (pair_of D.medium.image one.now)).blocks
        ≡ length (contents_on sides.other (pair_of E.medium.image other.now)).blocks }
    ensures block { IsTrue result → (contents_on sides.one (pair_of D.medium.image one.now)).map_block
        ≡ (contents_on sides.other (pair_of E.medium.image other.now)).map_block }
    ensures item { IsTrue result → (contents_on sides.one (pair_of D.medium.image one.now)).map_item
        ≡ (contents_on sides.other (pair_of E.medium.image other.now)).map_item }
{
    let (listed, copy) = (directory(one, sides.one), directory(other, sides.other));
    count(one, sides.one) == count(other, sides.other)
        && listed.map_block == copy.map_block
        && listed.map_item.0 == copy.map_item.0
        && listed.map_item.1 == copy.map_item.1
}

/// Whether both files have the same directory, with the same blocks.
fn same_contents<D: Device + Drop, E: Device + Drop>(
    alloc: Global,
    one: &mut VmFile<D>,
    other: &mut VmFile<E>,
    sides: Sides,
) -> Result<bool, Fault>
    ensures same { D.medium.honest one.old.device → E.medium.honest other.old.device → IfOk result (λ b. b ≡ true
        → contents_on sides.one (pair_of D.medium.image one.old) ≡ contents_on sides.other (pair_of E.medium.image other.old)) }
    ensures one_read { IsOnlyRead D.medium one.old one.new }
    ensures other_read { IsOnlyRead E.medium other.old other.new }
{
    if !same_maps(one, other, sides) {
        return Ok(false);
    }
    for i in 0..count(one, sides.one) {
        match same_block(alloc, one, other, sides, i) {
            Ok(true) => {}
            Ok(false) => return Ok(false),
            Err(error) => return Err(error),
        }
    }
    Ok(true)
}

/// Whether the other file has the pair of a copy, whose current directory is the one on a side.
#[tactic(auto, using(crate::proofs::Equal::pair_same))]
pub(crate) fn is_copy<D: Device + Drop, E: Device + Drop>(
    alloc: Global,
    file: &mut VmFile<D>,
    copy: &mut VmFile<E>,
    side: Side,
) -> Result<bool, Fault>
    ensures same { D.medium.honest file.old.device → E.medium.honest copy.old.device → IfOk result (λ b. b ≡ true
        → copied side (pair_of D.medium.image file.old) ≡ pair_of E.medium.image copy.old) }
    ensures file_read { IsOnlyRead D.medium file.old file.new }
    ensures copy_read { IsOnlyRead E.medium copy.old copy.new }
{
    let current = Sides {
        one: side,
        other: Side::Current,
    };
    let saved = Sides {
        one: Side::Saved,
        other: Side::Saved,
    };
    match same_contents(alloc, file, copy, current) {
        Ok(true) => same_contents(alloc, file, copy, saved),
        Ok(false) => Ok(false),
        Err(error) => Err(error),
    }
}
