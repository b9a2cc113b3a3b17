//! Room for a block that is made or grown.
ghost use Rattle.std.specs.Prelude.{◌≡◌, ◌<◌, ◌≤◌, IfOk, OnErr, Err};
ghost use Rattle.block_handles.specs.Gap.{IsGapBut, MakesRoom};
ghost use Rattle.block_handles.specs.Layout.{IsLaidOut};
ghost use Rattle.block_handles.specs.Packing.{IsEdge, IsRoomy};
ghost use Rattle.block_handles.specs.Store.{region_len};
ghost use Rattle.block_handles.specs.Stretch.{HasNoStretch};

use crate::arena::Arena;
use crate::error::RoomError;
use crate::pack::{pack_down, pack_up};
use crate::stretch::{Stretch, next_roomy, roomiest};

/// A free range of the region, in which the next block is placed.
#[derive(Clone, Copy)]
pub(crate) struct Gap {
    pub(crate) at: u32,
    pub(crate) end: u32,
}

/// A hole does not become the gap if the other free bytes are more than SHARE times
/// its own. Packing then makes a larger gap, for this request and many later ones.
const SHARE: u32 = 16;

impl Gap {
    ghost use Rattle.block_handles.specs.Joined.{Joins, Reaches};

    /// The gap, extended by a free range directly before or after it. A larger range
    /// elsewhere becomes the gap if it is large enough compared with the other `free` bytes.
    pub(crate) fn joined(self, from: u32, until: u32, free: u32) -> Gap
        requires { (self.at ≤ self.end) × (from ≤ until) }
        ensures { Joins self from until result }
    {
        if until == self.at {
            Gap { at: from, ..self }
        } else if from == self.end {
            Gap { end: until, ..self }
        } else if until - from > (self.end - self.at).max(free / SHARE) {
            Gap {
                at: from,
                end: until,
            }
        } else {
            self
        }
    }

    /// The gap, with the block that lies right before it, which is to grow.
    pub(crate) fn reaching(self, from: u32, until: u32) -> Gap
        ensures { Reaches self from until result }
    {
        if until == self.at {
            Gap { at: from, ..self }
        } else {
            self
        }
    }
}

/// The room that a stretch should have, so that packing it serves more than one request.
const LEAST: u32 = 4_096;

/// A stretch with room for a block in a slot: the next one after an offset that no block
/// crosses, or from the region's begin, that should serve, and otherwise the roomiest.
fn stretch_for(arena: &Arena, after: u32, slot: usize, size: u32) -> Result<Stretch, RoomError>
    requires laid { IsLaidOut arena.now }
    requires edge { IsEdge arena.now after }
    requires inside { after ≤ region_len arena.now }
    ensures roomy { IfOk result (λ s. IsRoomy arena.now slot s.from s.until s.room) }
    ensures enough { IfOk result (λ s. size ≤ s.room) }
    ensures err { OnErr result (result ≡ Err RoomError.NoRoom) }
    ensures full { OnErr result (HasNoStretch arena.now slot size) }
{
    let least = if size < LEAST { LEAST } else { size };
    if let Some(stretch) = next_roomy(arena, after, slot, least) {
        return Ok(stretch);
    }
    if let Some(stretch) = next_roomy(arena, 0, slot, least) {
        return Ok(stretch);
    }
    let stretch = roomiest(arena, slot);
    if stretch.room < size {
        return Err(RoomError::NoRoom);
    }
    Ok(stretch)
}

/// A gap with room for a new block in a slot, or for the block that is there, which may lie in the gap. If the current
/// gap is too small, packs one stretch: the next one after `after` that has room, provided that no block crosses
/// `after`.
pub(crate) fn room_for(
    arena: &mut Arena,
    gap: Gap,
    after: u32,
    slot: usize,
    size: u32,
) -> Result<Gap, RoomError>
    requires laid { IsLaidOut arena.old }
    requires gap { IsGapBut arena.old slot gap }
    requires edge { IsEdge arena.old after }
    requires inside { after ≤ region_len arena.old }
    requires size { 0 < size }
    ensures ok { IfOk result (λ opened. MakesRoom arena.old arena.new slot size opened) }
    ensures err { OnErr result ((result ≡ Err RoomError.NoRoom) × (arena.new ≡ arena.old)) }
    ensures full { OnErr result (HasNoStretch arena.old slot size) }
{
    if gap.end - gap.at >= size {
        return Ok(gap);
    }
    let stretch = stretch_for(arena, after, slot, size)?;
    if arena.has(slot) {
        let place = arena.place(slot);
        if stretch.from <= place && place < stretch.until {
            let behind = place + arena.size(slot);
            let at = pack_down(arena, stretch.from, place);
            let end = pack_up(arena, behind, stretch.until);
            return Ok(Gap { at, end });
        }
    }
    let at = pack_down(arena, stretch.from, stretch.until);
    Ok(Gap {
        at,
        end: stretch.until,
    })
}
