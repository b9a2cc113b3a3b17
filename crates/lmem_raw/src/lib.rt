//! A region of bytes over one raw allocation: the memory in which moving blocks lie.
//!
//! Only `raw` uses pointers. Everything here is a plain method over the slice that `raw`
//! returns, and callers see a `Region` as a list of bytes.
#![tactic(auto)]

ghost use Rattle.std.specs.Prelude.{◌≡◌, ℕ, ◌+◌, ◌*◌, ◌/◌, ◌%◌, ◌<◌, ◌≤◌, List, [], ◌∷◌, length, replicate, slice_index, IfOk};
ghost use Rattle.std.specs.Borrow.{sem};

mod raw;

use raw::{DeallocToken, RawBytes};
use std::alloc::{AllocError, Global};
use std::marker::Model;

/// A list of bytes of a fixed length. It owns one allocation, freed at its end.
pub struct Region {
    raw: RawBytes,
    token: DeallocToken<Global>,
    len: u32,
    alloc: Global,
}

impl Model for Region {
    ghost use Rattle.std.specs.Prelude.{List, ℕ};

    ghost Value = { List ℕ };

    ghost use Rattle.lmem_raw.specs.Whole.{IsWhole};

    ghost view = { λ r. r.raw.bytes };

    ghost invariant = { IsWhole };
}

impl Region {
    ghost use Rattle.lmem_raw.specs.Bytes.{part, with_part};
    ghost use Rattle.lmem_raw.specs.Parts.{LendsPart};

    /// A region of `size` zero bytes. This is the only call that
    /// allocates memory; `AllocError` if the allocator has none.
    pub fn new(alloc: Global, size: u32) -> Result<Region, AllocError>
        ensures { IfOk result (λ region. region ≡ replicate size 0) }
    {
        match RawBytes::allocate(&alloc, size as usize) {
            Some((mut raw, token)) => {
                for i in 0..size as usize {
                    raw.push(i, 0);
                }
                Ok(Region {
                    raw,
                    token,
                    len: size,
                    alloc,
                })
            }
            None => Err(AllocError),
        }
    }

    /// The number of bytes, which never changes.
    pub fn len(&self) -> u32
        ensures { result ≡ length self.now }
    {
        self.len
    }

    /// The byte at offset `at`.
    pub fn get8(&self, at: u32) -> u8
        requires { at < length self.now }
        ensures { result ≡ slice_index self.now at }
    {
        self.raw.slice(at as usize, 1)[0]
    }

    /// The word of the two bytes from `at` on, little-endian.
    pub fn get16(&self, at: u32) -> u16
        requires { at + 2 ≤ length self.now }
        ensures { result ≡ slice_index self.now at + 256 * slice_index self.now (at + 1) }
    {
        let bytes = self.raw.slice(at as usize, 2);
        u16::from_le_bytes([bytes[0], bytes[1]])
    }

    /// Writes the byte at offset `at`; every other byte stays.
    pub fn put8(&mut self, at: u32, byte: u8)
        requires { at < length self.old }
        ensures { self.new ≡ with_part self.old at (byte ∷ []) }
    {
        self.slice_mut(at, 1)[0] = byte;
    }

    /// Writes a word at `at` and `at + 1`, little-endian; every other byte stays.
    pub fn put16(&mut self, at: u32, word: u16)
        requires { at + 2 ≤ length self.old }
        ensures { self.new ≡ with_part self.old at (word % 256 ∷ word / 256 ∷ []) }
    {
        let [low, high] = word.to_le_bytes();
        let bytes = self.slice_mut(at, 2);
        bytes[0] = low;
        bytes[1] = high;
    }

    /// Writes `bytes` from `at` on; every other byte stays.
    pub fn put(&mut self, at: u32, bytes: &[u8])
        requires { at + length bytes.now ≤ length self.old }
        ensures { self.new ≡ with_part self.old at bytes.now }
    {
        let all = self.len();
        let n = bytes.len();
        prove!(n <= all as usize);
        self.slice_mut(at, n as u32).copy_from_slice(bytes);
    }

    /// Writes `byte` into each of the `count` bytes from `at` on; every other byte stays.
    pub fn fill(&mut self, at: u32, count: u32, byte: u8)
        requires { at + count ≤ length self.old }
        ensures { self.new ≡ with_part self.old at (replicate count byte) }
    {
        self.slice_mut(at, count).fill(byte);
    }

    /// Copies the `count` bytes from `from` on to `to`, with their old values,
    /// also if the two ranges overlap. Every byte outside the target stays.
    pub fn move_bytes(&mut self, from: u32, to: u32, count: u32)
        requires { (from + count ≤ length self.old) × (to + count ≤ length self.old) }
        ensures { self.new ≡ with_part self.old to (part self.old from count) }
    {
        let len = self.len();
        let (from, to, count) = (from as usize, to as usize, count as usize);
        self.slice_mut(0, len).copy_within(from..from + count, to);
    }

    /// Borrows the `count` bytes from `at` on for reading.
    pub fn slice(&self, at: u32, count: u32) -> &[u8]
        requires { at + count ≤ length self.now }
        ensures { result.now ≡ part self.now at count }
    {
        self.raw.slice(at as usize, count as usize)
    }

    /// Borrows the `count` bytes from `at` on for writing. When the borrow ends, the
    /// region has the bytes that were left in them, and every other byte is unchanged.
    pub fn slice_mut(&mut self, at: u32, count: u32) -> &mut [u8]
        requires { at + count ≤ length self.old }
        ensures* writes_back { sem 𝓛 (LendsPart self.entry at count result) }
        ensures value { result.now ≡ part self.old at count }
    {
        self.raw.slice_mut(at as usize, count as usize)
    }
}

impl Drop for Region {
    fn drop(self) {
        let Region {
            raw,
            token,
            len,
            alloc,
        } = self;
        raw.free(token, &alloc, len as usize);
    }
}
