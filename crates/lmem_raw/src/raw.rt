//! The bytes at a pointer, as their owner sees them.
ghost use Rattle.std.specs.Prelude.{◌≡◌, ℕ, ◌+◌, ◌^◌, ◌<◌, ◌≤◌, List, [], ◌∷◌, ◌++◌, length, IfSome};
ghost use Rattle.std.specs.Borrow.{sem};
ghost use denote.RawPtr.{Ptr};
ghost use Rattle.lmem_raw.specs.Ownership.{bytes_type, raw_owns, raw_lent};

use std::alloc::Allocator;
use std::marker::{Model, PhantomData};
use std::slice;

/// The bytes at `ptr`, and after them room for `spare` more.
pub(crate) struct RawBytes {
    pub(crate) ptr: *mut u8,
    pub(crate) ghost bytes: { List ℕ },
    pub(crate) ghost spare: { ℕ },
}

impl Model for RawBytes {
    ghost also_owns = { λ h. raw_owns h.ptr h.bytes h.spare };

    ghost also_shares = { λ h _ κ. raw_lent h.ptr h.bytes h.spare κ };
}

/// The right to release the block of `size` bytes at `ptr` to `alloc`.
pub(crate) struct DeallocToken<A: Allocator> {
    marker: PhantomData<A>,
    pub(crate) ghost alloc: { A },
    pub(crate) ghost ptr: { Ptr },
    pub(crate) ghost size: { ℕ },
}

impl<A: Allocator> Model for DeallocToken<A> {
    ghost also_owns = { λ d. A.dealloc_token d.alloc (bytes_type d.size) d.ptr };
}

impl RawBytes {
    ghost use Rattle.lmem_raw.specs.Bytes.{part};
    ghost use Rattle.lmem_raw.specs.Lending.{LendsRun};

    pub(crate) fn allocate<A: Allocator>(
        alloc: &A,
        size: usize,
    ) -> Option<(RawBytes, DeallocToken<A>)>
        requires { size < 2 ^ 63 }
        ensures { IfSome result (λ m. (m.0.bytes ≡ []) × (m.0.spare ≡ size) × (m.1.alloc ≡ alloc.now) × (m.1.ptr ≡ m.0.ptr) × (m.1.size ≡ size)) }
    {
        match alloc.allocate(size, 1) {
            Ok(ptr) => {
                let marker = PhantomData;
                Some((RawBytes { ptr }, DeallocToken { marker }))
            }
            Err(_) => None,
        }
    }

    pub(crate) fn free<A: Allocator>(self, token: DeallocToken<A>, alloc: &A, size: usize)
        requires { (token.alloc ≡ alloc.now) × (token.ptr ≡ self.ptr) × (token.size ≡ size) × (size ≡ length self.bytes + self.spare) }
    {
        let RawBytes { ptr } = self;
        let DeallocToken { marker: _ } = token;
        unsafe { alloc.deallocate(ptr, size, 1) }
    }

    /// Writes the next byte.
    pub(crate) fn push(&mut self, at: usize, byte: u8)
        requires { (at ≡ length self.old.bytes) × (0 < self.old.spare) }
        ensures { (self.new.ptr ≡ self.old.ptr) × (self.new.bytes ≡ self.old.bytes ++ byte ∷ []) × (self.new.spare + 1 ≡ self.old.spare) }
    {
        unsafe { self.ptr.add(at).write(byte) }
    }

    pub(crate) fn slice(&self, at: usize, n: usize) -> &[u8]
        requires { at + n ≤ length self.now.bytes }
        ensures { result.now ≡ part self.now.bytes at n }
    {
        unsafe { slice::from_raw_parts(self.ptr.add(at), n) }
    }

    pub(crate) fn slice_mut(&mut self, at: usize, n: usize) -> &mut [u8]
        requires { at + n ≤ length self.old.bytes }
        ensures* writes_back { sem 𝓛 (LendsRun self.entry at n result) }
        ensures value { result.now ≡ part self.old.bytes at n }
    {
        unsafe { slice::from_raw_parts_mut(self.ptr.add(at), n) }
    }
}
