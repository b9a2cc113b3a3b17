//! A directory read from a device.
ghost use Rattle.std.specs.Prelude.{◌≡◌, ◌+◌, ◌-◌, ◌<◌, ◌≤◌, ◌^◌, true, min, length, map, take, IfOk, OnOk, OnErr, IsTrue, ◌↔◌};
ghost use Rattle.geos_terms.specs.Block.{handle_word};
ghost use Rattle.geos_terms.specs.Heap.{IsHeap, most_block_bytes};
ghost use Rattle.lmem_raw.specs.Bytes.{part};
ghost use Rattle.vm_file.specs.Contents.{entry_of, listed};
ghost use Rattle.vm_file.specs.Directories.{AreMaps, are_entries, directory_length, entries_length, is_directory, is_entry};
ghost use Rattle.vm_file.specs.Device.{Rose};
ghost use Rattle.vm_file.specs.Outcomes.{Causes, CausesDisk, CausesNoBlock, IsHeapUnder, ReadsOnly, ReadsToFailure, Tells, items_of};
ghost use Rattle.vm_file.specs.Reading.{block_at, blocks_at, contents_at, count_at, maps_at};

use crate::device::{Device, Disk};
use crate::directory::{Directory, Entry, MOST_BLOCKS};
use crate::entries::entries_length;
use crate::error::OpenError;
use crate::fields::{count_at, head_at, maps_at};
use arrayvec::ArrayVec;
use lmem_block::check;

/// Reads the bytes from `at` on, as many as there are before `end` and `into` has room for,
/// and answers how many.
pub(crate) fn fill<D: Device>(
    device: &mut D,
    at: u64,
    end: u64,
    into: &mut [u8],
) -> Result<usize, Disk>
    requires range { (at ≤ end) × (end < 2 ^ 32) }
    requires within { end ≤ length (D.medium.image device.old) }
    ensures front { D.medium.honest device.old
        → IfOk result (λ n. take n into.new ≡ take (length into.old) (part (D.medium.image device.old) at (end - at))) }
    ensures count { IfOk result (λ n. n ≡ min (length into.old) (end - at)) }
    ensures reads { ReadsOnly D.medium device.old device.new }
    ensures cause { CausesDisk (D.medium.failed device.old) (D.medium.failed device.new) result }
{
    let n = into.len().min((end - at) as usize);
    match device.read_at(at, &mut into[..n]) {
        Ok(()) => Ok(n),
        Err(Disk) => Err(Disk),
    }
}

/// The handle word of a block.
#[tactic(auto, unfolding(geos_terms::specs::Bytes::word))]
fn handle_of(block: &[u8]) -> u16
    requires { 2 ≤ length block.now }
    ensures { result ≡ handle_word block.now }
{
    u16::from_le_bytes([block[0], block[1]])
}

/// Whether the bytes are a heap with this handle.
pub(crate) fn is_heap_of(block: &[u8], h: u16) -> bool
    ensures { IsTrue result ↔ IsHeapUnder h block.now }
{
    check(block) && handle_of(block) == h
}

/// Reads the bytes of a block with this handle directly into a slice, and checks them.
/// `Disk` if the device fails, or returns bytes that are no heap with this handle.
pub(crate) fn read_block<D: Device>(
    device: &mut D,
    at: u64,
    h: u16,
    into: &mut [u8],
) -> Result<(), Disk>
    requires { at + length into.old ≤ length (D.medium.image device.old) }
    ensures heap { OnOk result (IsHeapUnder h into.new) }
    ensures no_block { CausesNoBlock D.medium h at device.old device.new into.new result }
    ensures bytes { D.medium.honest device.old → OnOk result (into.new ≡ part (D.medium.image device.old) at (length into.old)) }
    ensures read { ReadsToFailure D.medium device.old device.new result }
    ensures cause { D.medium.honest device.old
        → IsHeap (part (D.medium.image device.old) at (length into.old))
        → handle_word (part (D.medium.image device.old) at (length into.old)) ≡ h
        → OnErr result (Rose (D.medium.failed device.old) (D.medium.failed device.new)) }
{
    match device.read_at(at, into) {
        Ok(()) => {}
        Err(Disk) => return Err(Disk),
    }
    if is_heap_of(into, h) {
        Ok(())
    } else {
        Err(Disk)
    }
}

/// Reads the block at an offset, after one with handle `last`, into a buffer of the greatest
/// block's size.
fn read_entry<D: Device>(
    device: &mut D,
    at: u64,
    end: u64,
    last: u16,
    buffer: &mut [u8],
) -> Result<Entry, OpenError>
    requires range { (at ≤ end) × (end < 2 ^ 31) }
    requires within { end ≤ length (D.medium.image device.old) }
    requires room { length buffer.old ≡ most_block_bytes }
    ensures exact { D.medium.honest device.old → Tells entry_of result (block_at last at (part (D.medium.image device.old) at (end - at))) }
    ensures legal { IfOk result (λ e. (is_entry last e ≡ true) × (at + (6 + e.len) ≤ end)) }
    ensures reads { ReadsOnly D.medium device.old device.new }
    ensures cause { Causes (D.medium.failed device.old) (D.medium.failed device.new) result }
{
    let mut head = [0u8; 6];
    let n = match fill(device, at, end, &mut head) {
        Ok(n) => n,
        Err(Disk) => return Err(OpenError::Disk),
    };
    let entry = match head_at(&head[..n], last, at) {
        Ok(entry) => entry,
        Err(fault) => return Err(OpenError::BadFile(fault)),
    };
    let from = at + 6;
    if end - from < u64::from(entry.len) {
        return Err(OpenError::BadFile(from));
    }
    let block = &mut buffer[..entry.len as usize];
    match device.read_at(from, block) {
        Ok(()) => {}
        Err(Disk) => return Err(OpenError::Disk),
    }
    if is_heap_of(block, entry.h) {
        Ok(entry)
    } else {
        Err(OpenError::BadFile(from))
    }
}

/// Reads so many blocks from an offset on.
fn read_entries<D: Device>(
    device: &mut D,
    at: u64,
    end: u64,
    count: u16,
    buffer: &mut [u8],
) -> Result<ArrayVec<Entry, MOST_BLOCKS>, OpenError>
    requires range { (at ≤ end) × (end < 2 ^ 31) }
    requires within { end ≤ length (D.medium.image device.old) }
    requires room { length buffer.old ≡ most_block_bytes }
    requires few { count ≤ MOST_BLOCKS }
    ensures exact { D.medium.honest device.old
        → Tells (map entry_of) (items_of result) (blocks_at count 0 at (part (D.medium.image device.old) at (end - at))) }
    ensures legal { IfOk result (λ es. (are_entries 0 es.items ≡ true) × (at + entries_length es.items ≤ end)) }
    ensures reads { ReadsOnly D.medium device.old device.new }
    ensures cause { Causes (D.medium.failed device.old) (D.medium.failed device.new) result }
{
    let mut entries = ArrayVec::new();
    let mut from = at;
    let mut last = 0;
    for _ in 0..count {
        match read_entry(device, from, end, last, buffer) {
            Ok(entry) => {
                entries.push(entry);
                last = entry.h;
                from += 6 + u64::from(entry.len);
            }
            Err(error) => return Err(error),
        }
    }
    Ok(entries)
}

/// Reads the number of blocks of a directory.
fn read_count<D: Device>(device: &mut D, at: u64, end: u64) -> Result<u16, OpenError>
    requires range { (at ≤ end) × (end < 2 ^ 31) }
    requires within { end ≤ length (D.medium.image device.old) }
    ensures exact { D.medium.honest device.old → Tells (λ n. n) result (count_at at (part (D.medium.image device.old) at (end - at))) }
    ensures legal { IfOk result (λ n. (n ≤ MOST_BLOCKS) × (at + 2 ≤ end)) }
    ensures reads { ReadsOnly D.medium device.old device.new }
    ensures cause { Causes (D.medium.failed device.old) (D.medium.failed device.new) result }
{
    let mut word = [0u8; 2];
    let n = match fill(device, at, end, &mut word) {
        Ok(n) => n,
        Err(Disk) => return Err(OpenError::Disk),
    };
    match count_at(&word[..n], at) {
        Ok(count) => Ok(count),
        Err(fault) => Err(OpenError::BadFile(fault)),
    }
}

/// Reads the map block, and the group and chunk of the map item, after these entries.
fn read_maps<D: Device>(
    device: &mut D,
    entries: &[Entry],
    at: u64,
    end: u64,
) -> Result<(u16, (u16, u16)), OpenError>
    requires range { (at ≤ end) × (end < 2 ^ 31) }
    requires within { end ≤ length (D.medium.image device.old) }
    ensures exact { D.medium.honest device.old → Tells (λ m. m) result (maps_at entries.now at (part (D.medium.image device.old) at (end - at))) }
    ensures legal { IfOk result (λ m. (at + 6 ≤ end) × AreMaps entries.now m.0 m.1.0 m.1.1) }
    ensures reads { ReadsOnly D.medium device.old device.new }
    ensures cause { Causes (D.medium.failed device.old) (D.medium.failed device.new) result }
{
    let mut maps = [0u8; 6];
    let n = match fill(device, at, end, &mut maps) {
        Ok(n) => n,
        Err(Disk) => return Err(OpenError::Disk),
    };
    match maps_at(&maps[..n], entries, at) {
        Ok(found) => Ok(found),
        Err(fault) => Err(OpenError::BadFile(fault)),
    }
}

/// Reads the directory at an offset, through a buffer of the greatest block's size.
pub(crate) fn read_directory<D: Device>(
    device: &mut D,
    at: u64,
    end: u64,
    buffer: &mut [u8],
) -> Result<Directory, OpenError>
    requires range { (at ≤ end) × (end < 2 ^ 30) }
    requires within { end ≤ length (D.medium.image device.old) }
    requires room { length buffer.old ≡ most_block_bytes }
    ensures exact { D.medium.honest device.old → Tells listed result (contents_at at (part (D.medium.image device.old) at (end - at))) }
    ensures legal { IfOk result (λ d. (is_directory d ≡ true) × (at + directory_length d ≤ end)) }
    ensures reads { ReadsOnly D.medium device.old device.new }
    ensures cause { Causes (D.medium.failed device.old) (D.medium.failed device.new) result }
{
    let count = match read_count(device, at, end) {
        Ok(count) => count,
        Err(error) => return Err(error),
    };
    let entries = match read_entries(device, at + 2, end, count, buffer) {
        Ok(entries) => entries,
        Err(error) => return Err(error),
    };
    let from = at + 2 + u64::from(entries_length(&entries));
    match read_maps(device, &entries, from, end) {
        Ok((map_block, map_item)) => Ok(Directory {
            entries,
            map_block,
            map_item,
        }),
        Err(error) => Err(error),
    }
}
