//! What others may change in the region.
ghost use Rattle.std.specs.Prelude.{ℕ};
ghost use Rattle.block_handles.specs.Layout.{IsLaidOut};
ghost use Rattle.block_handles.specs.Store.{Store};
ghost use Rattle.vm_blocks.specs.Keeping.{IsMarkedHeap, SameBut};
ghost use Rattle.vm_blocks.specs.MemoryKeeping.{BlocksMayGo, MarkedMayChange, OthersMayChange, RoomMayWant};
ghost use Rattle.vm_blocks.specs.Tied.{IsTied};

use crate::blocks::VmBlocks;
use vm_file::Device;

impl<D: Device + Drop> VmBlocks<D> {
    /// Blocks of the file stay tied if other blocks change, and if a marked block changes and
    /// is still a heap under its handle: its lock count, its bytes and its size may change.
    pub fn blocks_may_change(&self)
        ensures others { (s t : Store) → IsTied D.medium self.now s → IsLaidOut t → SameBut s t 0 → IsTied D.medium self.now t }
        ensures marked { (s t : Store) (h : ℕ) → IsTied D.medium self.now s → IsLaidOut t → SameBut s t h → IsMarkedHeap self.now t h
            → IsTied D.medium self.now t }
    {}

    /// How these changes and evictions change the model's memory, and when a call may be refused for lack of room.
    pub fn memory_may_change(&self)
        ensures others { OthersMayChange D.medium self.now }
        ensures discarded { BlocksMayGo D.medium self.now }
        ensures marked { MarkedMayChange D.medium self.now }
        ensures room { RoomMayWant D.medium self.now }
    {}
}
