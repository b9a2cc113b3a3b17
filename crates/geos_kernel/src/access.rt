//! Loads, stores and copies over spans.
//!
//! Each call does what its row says at every reference that a span stands for. No span is
//! tested when it runs: the caller knows that its spans are good.

ghost use Rattle.std.specs.Prelude.{[], ◌∷◌, ◌+◌, ◌<◌, ◌≤◌, length, Ok};

use crate::kernel::Kernel;
use crate::span::Span;
use vm_file::Device;

impl<D: Device + Drop> Kernel<D> {
    ghost use Rattle.geos_terms.specs.Bytes.{word_bytes};
    ghost use Rattle.geos_calls.specs.Calls as table;
    ghost use Rattle.geos_calls.specs.VmFile.{VmFile};
    ghost use Rattle.geos_calls.specs.Effects.{Reference, Nothing};
    ghost use Rattle.geos_kernel.specs.Kernel.{Calls, LeavesVm, Remain, Stores};
    ghost use Rattle.geos_kernel.specs.Loads.{Loads};
    ghost use Rattle.geos_kernel.specs.Spans.{Stands, IsStanding, IsWritable, SpansStay};
    ghost use Rattle.geos_kernel.specs.View.{IsFileOf};

    /// The byte at the offset `at` of a span, which has one there.
    pub fn load8(&self, span: Span, at: u16) -> u8
        requires stands { IsStanding self.now.core span }
        requires within { at < span.len }
        ensures { (ref : Reference) → Stands self.now.core span ref
            → Calls (D.medium.honest self.now.device) (table.load8 ref at) (Ok result) self.now.core self.now.core }
    {
        self.blocks.read8(span.at + u32::from(at))
    }

    /// The word at the offset `at` of a span, little end first. The span has both bytes.
    pub fn load16(&self, span: Span, at: u16) -> u16
        requires stands { IsStanding self.now.core span }
        requires within { at + 2 ≤ span.len }
        ensures { (ref : Reference) → Stands self.now.core span ref
            → Calls (D.medium.honest self.now.device) (table.load16 ref at) (Ok result) self.now.core self.now.core }
    {
        self.blocks.read16(span.at + u32::from(at))
    }

    /// Copies the bytes from the offset `at` of a span on into `into`, which it has there.
    pub fn read(&self, span: Span, at: u16, into: &mut [u8])
        requires stands { IsStanding self.now.core span }
        requires within { at + length into.old ≤ span.len }
        ensures { Loads (D.medium.honest self.now.device) span at into.new self.now.core }
    {
        let len = into.len();
        if len > 0 {
            into.copy_from_slice(self.blocks.read(span.at + u32::from(at), len as u32));
        }
    }

    /// Writes a byte at the offset `at` of a span, which has one there. A block of the VM file that it
    /// lies in is marked. All spans stay.
    pub fn store8(&mut self, span: Span, at: u16, byte: u8)
        requires stands { IsWritable self.old.core span }
        requires within { at < span.len }
        ensures row { Stores (D.medium.honest self.old.device) span at (byte ∷ []) self.old.core self.new.core }
        ensures spans { (f : VmFile) → IsFileOf (D.medium.honest self.old.device) self.old.core f → SpansStay self.old.core self.new.core f Nothing }
        ensures vm { LeavesVm self.old self.new }
        ensures remain { Remain self.old.core.blocks self.new.core.blocks 0 }
    {
        self.blocks.write8(span.at + u32::from(at), byte);
    }

    /// Writes a word at the offset `at` of a span, little end first. The span has both bytes, and a
    /// block of the VM file that it lies in is marked. All spans stay.
    pub fn store16(&mut self, span: Span, at: u16, word: u16)
        requires stands { IsWritable self.old.core span }
        requires within { at + 2 ≤ span.len }
        ensures row { Stores (D.medium.honest self.old.device) span at (word_bytes word) self.old.core self.new.core }
        ensures spans { (f : VmFile) → IsFileOf (D.medium.honest self.old.device) self.old.core f → SpansStay self.old.core self.new.core f Nothing }
        ensures vm { LeavesVm self.old self.new }
        ensures remain { Remain self.old.core.blocks self.new.core.blocks 0 }
    {
        self.blocks.write16(span.at + u32::from(at), word);
    }

    /// Writes bytes from the offset `at` of a span on, which has so many there. A block of the VM file
    /// that it lies in is marked. All spans stay.
    pub fn store(&mut self, span: Span, at: u16, bytes: &[u8])
        requires stands { IsWritable self.old.core span }
        requires within { at + length bytes.now ≤ span.len }
        ensures row { Stores (D.medium.honest self.old.device) span at bytes.now self.old.core self.new.core }
        ensures spans { (f : VmFile) → IsFileOf (D.medium.honest self.old.device) self.old.core f → SpansStay self.old.core self.new.core f Nothing }
        ensures vm { LeavesVm self.old self.new }
        ensures remain { Remain self.old.core.blocks self.new.core.blocks 0 }
    {
        let len = bytes.len();
        if len > 0 {
            self.blocks.write(span.at + u32::from(at), bytes);
        }
    }

    /// Copies the first `len` bytes of `from`, as they were before, to the beginning of `to`,
    /// also where both overlap. Both spans have so many bytes, and a block of the VM file that `to`
    /// lies in is marked. All spans stay.
    pub fn copy(&mut self, to: Span, from: Span, len: u16)
        requires to { IsWritable self.old.core to × (len ≤ to.len) }
        requires from { IsStanding self.old.core from × (len ≤ from.len) }
        ensures row { (target source : Reference) → Stands self.old.core to target → Stands self.old.core from source →
            Calls (D.medium.honest self.old.device) (table.copy target source len) (Ok tt) self.old.core self.new.core }
        ensures spans { (f : VmFile) → IsFileOf (D.medium.honest self.old.device) self.old.core f → SpansStay self.old.core self.new.core f Nothing }
        ensures vm { LeavesVm self.old self.new }
        ensures remain { Remain self.old.core.blocks self.new.core.blocks 0 }
    {
        let blocks = &mut self.blocks;
        if len == 0 {
            return;
        }
        // what lies in the region are bytes, as a block that is copied to is to encode
        let _ = blocks.region();
        blocks.copy(from.at, to.at, u32::from(len));
    }
}
