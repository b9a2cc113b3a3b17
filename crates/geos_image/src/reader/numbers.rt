//! Numbers at an offset of the bytes.

ghost use Rattle.std.specs.Prelude.{◌≡◌, ◌<◌, ◌^◌, IfOk};
ghost use Rattle.geos_image.specs.Reading.{byte_at, word_at, long_at, byte_below, word_below};

use byteorder::{ByteOrder, LittleEndian};

/// The offset of the first byte of a field that is cut or breaks its rule.
pub(crate) type Fault = usize;

pub(crate) fn byte_at(bytes: &[u8], at: usize) -> Result<u8, Fault>
    ensures { result ≡ byte_at bytes.now at }
{
    if at < bytes.len() {
        Ok(bytes[at])
    } else {
        Err(at)
    }
}

pub(crate) fn word_at(bytes: &[u8], at: usize) -> Result<u16, Fault>
    requires { at < 2 ^ 32 }
    ensures { result ≡ word_at bytes.now at }
{
    if at + 1 < bytes.len() {
        Ok(LittleEndian::read_u16(&bytes[at..]))
    } else {
        Err(at)
    }
}

pub(crate) fn long_at(bytes: &[u8], at: usize) -> Result<u32, Fault>
    requires { at < 2 ^ 32 }
    ensures { result ≡ long_at bytes.now at }
{
    if at + 3 < bytes.len() {
        Ok(LittleEndian::read_u32(&bytes[at..]))
    } else {
        Err(at)
    }
}

pub(crate) fn byte_below(limit: u32, bytes: &[u8], at: usize) -> Result<u8, Fault>
    ensures exact { result ≡ byte_below limit bytes.now at }
    ensures legal { IfOk result (λ n. n < limit) }
{
    let byte = byte_at(bytes, at)?;
    if u32::from(byte) < limit {
        Ok(byte)
    } else {
        Err(at)
    }
}

pub(crate) fn word_below(limit: u32, bytes: &[u8], at: usize) -> Result<u16, Fault>
    requires { at < 2 ^ 32 }
    ensures exact { result ≡ word_below limit bytes.now at }
    ensures legal { IfOk result (λ n. n < limit) }
{
    let word = word_at(bytes, at)?;
    if u32::from(word) < limit {
        Ok(word)
    } else {
        Err(at)
    }
}
