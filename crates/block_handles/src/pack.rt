//! Packing the unlocked blocks of a stretch: each moves at most once.
ghost use Rattle.std.specs.Prelude.{◌≡◌, ◌+◌, ◌≤◌};
ghost use Rattle.block_handles.specs.Layout.{IsLaidOut, IsFree};
ghost use Rattle.block_handles.specs.Packing.{CanPack, Moves};
ghost use Rattle.block_handles.specs.Store.{region_len, size_of};
ghost use Rattle.block_handles.specs.Stretch.{sum_in};

use crate::arena::Arena;

/// Slides the blocks that lie in a range down to its begin. Returns the offset at which the last one ends.
pub(crate) fn pack_down(arena: &mut Arena, from: u32, until: u32) -> u32
    requires laid { IsLaidOut arena.old }
    requires range { (from ≤ until) × (until ≤ region_len arena.old) }
    requires packs { CanPack arena.old from until }
    ensures range { (from ≤ result) × (result ≤ until) }
    ensures moves { Moves arena.old arena.new from until from result }
    ensures free { IsFree arena.new result until }
    ensures packed { result ≡ from + sum_in arena.old from until (size_of arena.old) }
{
    let mut at = from;
    let mut scan = from;
    while let Some(slot) = arena.first_in(scan, until) {
        let place = arena.place(slot);
        let size = arena.size(slot);
        arena.slide(slot, at);
        at += size;
        scan = place + size;
    }
    at
}

/// Slides the blocks that lie in a range up to its end. Returns the offset at which the first one begins.
pub(crate) fn pack_up(arena: &mut Arena, from: u32, until: u32) -> u32
    requires laid { IsLaidOut arena.old }
    requires range { (from ≤ until) × (until ≤ region_len arena.old) }
    requires packs { CanPack arena.old from until }
    ensures range { (from ≤ result) × (result ≤ until) }
    ensures moves { Moves arena.old arena.new from until result until }
    ensures free { IsFree arena.new from result }
    ensures packed { result + sum_in arena.old from until (size_of arena.old) ≡ until }
{
    let mut at = until;
    let mut scan = until;
    while let Some(slot) = arena.last_in(from, scan) {
        let place = arena.place(slot);
        let size = arena.size(slot);
        at -= size;
        arena.slide(slot, at);
        scan = place;
    }
    at
}
