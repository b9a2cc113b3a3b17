//! The fields of a file, in bytes that were read.
ghost use Rattle.std.specs.Prelude.{◌≡◌, ◌<◌, ◌≤◌, ◌^◌, true, IfOk, length, not, ◌==◌};
ghost use Rattle.std.specs.List.{position_or_len};
ghost use Rattle.vm_file.specs.Reading.{area_size_at, count_at, head_at, header_at, is_area, maps_at, word_at, zeros_at};

use crate::directory::{Entry, MOST_BLOCKS};
use crate::entries::{has_block, has_group};
use geos_terms::is_block_size;

/// The offset of the first byte of a field that is cut or breaks its rule.
pub(crate) type Fault = u64;

/// The word at `k` of the bytes from an offset on.
#[tactic(auto, unfolding(geos_terms::specs::Bytes::word))]
pub(crate) fn word_at(bytes: &[u8], at: u64, k: usize) -> Result<u16, Fault>
    requires { (at < 2 ^ 32) × (k < 2 ^ 10) }
    ensures { result ≡ word_at at bytes.now k }
{
    if k + 1 < bytes.len() {
        Ok(u16::from_le_bytes([bytes[k], bytes[k + 1]]))
    } else {
        Err(at + k as u64)
    }
}

/// Handle, user ID and length of a block after one with handle `last`.
#[tactic(auto, unfolding(crate::specs::Reading::head_at))]
pub(crate) fn head_at(bytes: &[u8], last: u16, at: u64) -> Result<Entry, Fault>
    requires { at < 2 ^ 32 }
    ensures { result ≡ head_at last at bytes.now }
{
    let h = word_at(bytes, at, 0)?;
    if !(last < h && h as usize <= MOST_BLOCKS) {
        return Err(at);
    }
    let uid = word_at(bytes, at, 2)?;
    let len = word_at(bytes, at, 4)?;
    if !is_block_size(len as usize) {
        return Err(at + 4);
    }
    Ok(Entry { h, uid, len })
}

/// The number of blocks of a directory.
pub(crate) fn count_at(bytes: &[u8], at: u64) -> Result<u16, Fault>
    requires { at < 2 ^ 32 }
    ensures exact { result ≡ count_at at bytes.now }
    ensures few { IfOk result (λ n. n ≤ MOST_BLOCKS) }
{
    let n = word_at(bytes, at, 0)?;
    if n as usize <= MOST_BLOCKS {
        Ok(n)
    } else {
        Err(at)
    }
}

/// The map block, and the group and chunk of the map item, after these entries.
#[tactic(auto, unfolding(crate::specs::Reading::maps_at))]
pub(crate) fn maps_at(bytes: &[u8], entries: &[Entry], at: u64) -> Result<(u16, (u16, u16)), Fault>
    requires { at < 2 ^ 32 }
    ensures { result ≡ maps_at entries.now at bytes.now }
{
    let h = word_at(bytes, at, 0)?;
    if h != 0 && !has_block(entries, h) {
        return Err(at);
    }
    let group = word_at(bytes, at, 2)?;
    if group != 0 && !has_group(entries, group) {
        return Err(at + 2);
    }
    let item = word_at(bytes, at, 4)?;
    if group == 0 && item != 0 {
        return Err(at + 4);
    }
    Ok((h, (group, item)))
}

/// The area size.
#[tactic(auto, unfolding(geos_terms::specs::Bytes::word))]
fn area_size_at(bytes: &[u8]) -> Result<u32, Fault>
    ensures exact { result ≡ area_size_at bytes.now }
    ensures legal { IfOk result (λ n. (is_area n ≡ true) × (n ≤ 16777216)) }
{
    if bytes.len() < 12 {
        return Err(8);
    }
    let area = u32::from_le_bytes([bytes[8], bytes[9], bytes[10], bytes[11]]);
    if area >= 512 && area <= 16_777_216 && area % 512 == 0 {
        Ok(area)
    } else {
        Err(8)
    }
}

/// How many bytes are zero before the first one that is another.
fn leading_zeros(bytes: &[u8]) -> usize
    ensures exact { result ≡ position_or_len (λ b. not (b == 0)) bytes.now }
    ensures within { result ≤ length bytes.now }
{
    for (i, b) in bytes.iter().enumerate() {
        if *b != 0 {
            return i;
        }
    }
    bytes.len()
}

/// How many of the bytes from 12 to 511 are zero before one that is another or cut.
fn zeros_at(bytes: &[u8]) -> usize
    ensures exact { result ≡ zeros_at bytes.now }
    ensures within { result ≤ 500 }
{
    let from = bytes.len().min(12);
    let end = bytes.len().min(512);
    leading_zeros(&bytes[from..end])
}

/// The area size in the first 512 bytes of a file, or in as many as there are.
#[tactic(auto, unfolding(crate::specs::Reading::header_at))]
pub(crate) fn header_at(bytes: &[u8]) -> Result<u32, Fault>
    ensures exact { result ≡ header_at bytes.now }
    ensures legal { IfOk result (λ n. (is_area n ≡ true) × (n ≤ 16777216)) }
{
    if !bytes.starts_with(b"GVM1") {
        return Err(0);
    }
    if word_at(bytes, 0, 4)? != 1 {
        return Err(4);
    }
    if word_at(bytes, 0, 6)? != 0 {
        return Err(6);
    }
    let area = area_size_at(bytes)?;
    let zeros = zeros_at(bytes);
    if zeros == 500 {
        Ok(area)
    } else {
        Err(12 + zeros as u64)
    }
}
