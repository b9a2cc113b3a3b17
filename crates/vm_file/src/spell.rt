//! The bytes of an area, built in memory before they are written: each function appends, within the
//! room that the buffer has.
ghost use Rattle.std.specs.Prelude.{◌≡◌, ◌+◌, ◌-◌, ◌<◌, ◌≤◌, ◌^◌, ◌++◌, true, length, map, take, All, IsSome, OnOk, OnErr};
ghost use Rattle.std.specs.List.{Contains, list_all, flat_map};
ghost use Rattle.std.specs.Vec.{vec_len, vec_capacity};
ghost use Rattle.geos_terms.specs.Block.{handle_word};
ghost use Rattle.geos_terms.specs.Bytes.{word_bytes};
ghost use Rattle.geos_terms.specs.Heap.{IsHeap};
ghost use Rattle.lmem_raw.specs.Bytes.{part};
ghost use Rattle.vm_file.specs.Committing.{AreResident, HasLength, IsWithin, placed_block, placed_contents};
ghost use Rattle.vm_file.specs.Contents.{block_spelling, contents_spelling, is_filled};
ghost use Rattle.vm_file.specs.Device.{Rose};
ghost use Rattle.vm_file.specs.Directories.{directory_length, entries_length};
ghost use Rattle.vm_file.specs.Outcomes.{CausesNoBlocks, IsOfBlock, ReadsToFailure};

use crate::commit::Source;
use crate::device::{Device, Disk};
use crate::directory::{Directory, Entry, MOST_BLOCKS};
use crate::entries::place_in;
use crate::reader::read_block;

/// Appends a word.
fn put_word(into: &mut Vec<u8>, word: u16)
    requires { vec_len into.old + 2 ≤ vec_capacity into.old }
    ensures items { into.new.items ≡ into.old.items ++ word_bytes word }
    ensures len { vec_len into.new ≡ vec_len into.old + 2 }
    ensures room { vec_capacity into.old ≤ vec_capacity into.new }
{
    into.extend_from_slice(&[(word % 256) as u8, (word / 256) as u8])
        .unwrap();
}

/// Appends three words.
fn put_words(into: &mut Vec<u8>, first: u16, second: u16, third: u16)
    requires { vec_len into.old + 6 ≤ vec_capacity into.old }
    ensures items { into.new.items ≡ into.old.items ++ (word_bytes first ++ word_bytes second ++ word_bytes third) }
    ensures len { vec_len into.new ≡ vec_len into.old + 6 }
    ensures room { vec_capacity into.old ≤ vec_capacity into.new }
{
    put_word(into, first);
    put_word(into, second);
    put_word(into, third);
}

/// Reads the bytes of a block with this handle into a slice from `at` on, and checks
/// them. `Disk` if the device fails, or returns bytes that are no heap with this handle.
fn read_from<D: Device>(
    device: &mut D,
    from: u64,
    h: u16,
    into: &mut [u8],
    at: usize,
) -> Result<(), Disk>
    requires at { at ≤ length into.old }
    requires within { from + (length into.old - at) ≤ length (D.medium.image device.old) }
    ensures long { length into.new ≡ length into.old }
    ensures bytes { D.medium.honest device.old
        → OnOk result (into.new ≡ take at into.old ++ part (D.medium.image device.old) from (length into.old - at)) }
    ensures read { ReadsToFailure D.medium device.old device.new result }
    ensures no_block { CausesNoBlocks D.medium (IsOfBlock h (length into.old - at)) device.old device.new result }
    ensures cause { D.medium.honest device.old
        → IsHeap (part (D.medium.image device.old) from (length into.old - at))
        → handle_word (part (D.medium.image device.old) from (length into.old - at)) ≡ h
        → OnErr result (Rose (D.medium.failed device.old) (D.medium.failed device.new)) }
{
    read_block(device, from, h, &mut into[at..])
}

/// Appends `n` bytes that are read as a block with this handle.
fn append_block<D: Device>(
    device: &mut D,
    from: u64,
    h: u16,
    n: u16,
    into: &mut Vec<u8>,
) -> Result<(), Disk>
    requires room { vec_len into.old + n ≤ vec_capacity into.old }
    requires within { from + n ≤ length (D.medium.image device.old) }
    ensures items { D.medium.honest device.old → OnOk result (into.new.items ≡ into.old.items ++ part (D.medium.image device.old) from n) }
    ensures len { vec_len into.new ≡ vec_len into.old + n }
    ensures room { vec_capacity into.old ≤ vec_capacity into.new }
    ensures read { ReadsToFailure D.medium device.old device.new result }
    ensures no_block { CausesNoBlocks D.medium (IsOfBlock h n) device.old device.new result }
    ensures cause { D.medium.honest device.old
        → IsHeap (part (D.medium.image device.old) from n)
        → handle_word (part (D.medium.image device.old) from n) ≡ h
        → OnErr result (Rose (D.medium.failed device.old) (D.medium.failed device.new)) }
{
    let at = into.len();
    into.resize(at + n as usize, 0).unwrap();
    read_from(device, from, h, into, at)
}

/// A directory of the file from which blocks are read, with the offset of its first entry.
#[derive(Drop)]
pub(crate) struct Placed<'a> {
    pub(crate) directory: &'a Directory,
    pub(crate) from: u64,
}

/// Appends the entry and the bytes of a block: those of the source if they are resident there,
/// otherwise those that are read at the stored directory's entry of the same handle.
fn spell_block<D: Device, S: Source>(
    device: &mut D,
    kept: &Placed<'_>,
    e: Entry,
    source: &S,
    into: &mut Vec<u8>,
) -> Result<(), Disk>
    requires range { kept.now.from < 2 ^ 32 }
    requires room { vec_len into.old + (6 + e.len) ≤ vec_capacity into.old }
    requires length { HasLength (S.resident_bytes source.now) e }
    requires within { IsWithin (S.resident_bytes source.now) (D.medium.image device.old) kept.now e }
    ensures items { D.medium.honest device.old → OnOk result (into.new.items
        ≡ into.old.items ++ block_spelling (placed_block (S.resident_bytes source.now) (D.medium.image device.old) kept.now e)) }
    ensures len { vec_len into.new ≡ vec_len into.old + (6 + e.len) }
    ensures room { vec_capacity into.old ≤ vec_capacity into.new }
    ensures read { ReadsToFailure D.medium device.old device.new result }
    ensures no_block { CausesNoBlocks D.medium (IsOfBlock e.h e.len) device.old device.new result }
    ensures resident { IsSome (S.resident_bytes source.now e.h) → OnErr result ⊥ }
    ensures cause { D.medium.honest device.old
        → is_filled (placed_block (S.resident_bytes source.now) (D.medium.image device.old) kept.now e) ≡ true
        → OnErr result (Rose (D.medium.failed device.old) (D.medium.failed device.new)) }
{
    put_words(into, e.h, e.uid, e.len);
    match source.resident(e.h) {
        Some(bytes) => {
            into.extend_from_slice(bytes).unwrap();
            Ok(())
        }
        None => {
            let place = kept.from + u64::from(place_in(&kept.directory.entries, e.h));
            append_block(device, place, e.h, e.len, into)
        }
    }
}

/// Appends blocks, one after the other, as `spell_block` does one.
fn spell_blocks<D: Device, S: Source>(
    device: &mut D,
    kept: &Placed<'_>,
    entries: &[Entry],
    source: &S,
    into: &mut Vec<u8>,
) -> Result<(), Disk>
    requires range { kept.now.from < 2 ^ 32 }
    requires few { length entries.now ≤ MOST_BLOCKS }
    requires room { vec_len into.old + entries_length entries.now ≤ vec_capacity into.old }
    requires length { All (HasLength (S.resident_bytes source.now)) entries.now }
    requires within { All (IsWithin (S.resident_bytes source.now) (D.medium.image device.old) kept.now) entries.now }
    ensures items { D.medium.honest device.old → OnOk result (into.new.items ≡ into.old.items
        ++ flat_map block_spelling (map (placed_block (S.resident_bytes source.now) (D.medium.image device.old) kept.now) entries.now)) }
    ensures len { OnOk result (vec_len into.new ≡ vec_len into.old + entries_length entries.now) }
    ensures room { vec_capacity into.old ≤ vec_capacity into.new }
    ensures read { ReadsToFailure D.medium device.old device.new result }
    ensures no_block { CausesNoBlocks D.medium (Contains entries.now) device.old device.new result }
    ensures resident { AreResident (S.resident_bytes source.now) entries.now → OnErr result ⊥ }
    ensures cause { D.medium.honest device.old
        → list_all is_filled (map (placed_block (S.resident_bytes source.now) (D.medium.image device.old) kept.now) entries.now) ≡ true
        → OnErr result (Rose (D.medium.failed device.old) (D.medium.failed device.new)) }
{
    for e in entries {
        match spell_block(device, kept, *e, source, into) {
            Ok(()) => {}
            Err(Disk) => return Err(Disk),
        }
    }
    Ok(())
}

/// Appends a directory with the bytes of its blocks, as `spell_block` does a block.
pub(crate) fn spell_directory<D: Device, S: Source>(
    device: &mut D,
    kept: &Placed<'_>,
    directory: &Directory,
    source: &S,
    into: &mut Vec<u8>,
) -> Result<(), Disk>
    requires range { kept.now.from < 2 ^ 32 }
    requires room { vec_len into.old + directory_length directory.now ≤ vec_capacity into.old }
    requires length { All (HasLength (S.resident_bytes source.now)) directory.now.entries.items }
    requires within { All (IsWithin (S.resident_bytes source.now) (D.medium.image device.old) kept.now) directory.now.entries.items }
    ensures items { D.medium.honest device.old → OnOk result (into.new.items ≡ into.old.items
        ++ contents_spelling (placed_contents (S.resident_bytes source.now) (D.medium.image device.old) kept.now directory.now)) }
    ensures len { OnOk result (vec_len into.new ≡ vec_len into.old + directory_length directory.now) }
    ensures room { vec_capacity into.old ≤ vec_capacity into.new }
    ensures read { ReadsToFailure D.medium device.old device.new result }
    ensures no_block { CausesNoBlocks D.medium (Contains directory.now.entries.items) device.old device.new result }
    ensures resident { AreResident (S.resident_bytes source.now) directory.now.entries.items → OnErr result ⊥ }
    ensures cause { D.medium.honest device.old
        → list_all is_filled (placed_contents (S.resident_bytes source.now) (D.medium.image device.old) kept.now directory.now).blocks ≡ true
        → OnErr result (Rose (D.medium.failed device.old) (D.medium.failed device.new)) }
{
    put_word(into, directory.entries.len() as u16);
    match spell_blocks(device, kept, &directory.entries, source, into) {
        Ok(()) => {}
        Err(Disk) => return Err(Disk),
    }
    let (group, item) = directory.map_item;
    put_words(into, directory.map_block, group, item);
    Ok(())
}

/// Appends the bytes that are there again.
pub(crate) fn put_again(into: &mut Vec<u8>)
    requires { vec_len into.old + vec_len into.old ≤ vec_capacity into.old }
    ensures items { into.new.items ≡ into.old.items ++ into.old.items }
    ensures len { vec_len into.new ≡ vec_len into.old + vec_len into.old }
{
    into.extend_from_within(..).unwrap();
}
