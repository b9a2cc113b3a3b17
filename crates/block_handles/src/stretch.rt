//! The stretches of the region between locked blocks.
ghost use Rattle.std.specs.Prelude.{◌+◌, ◌≤◌, IfSome};
ghost use Rattle.block_handles.specs.Packing.{IsEdge, IsRoomiest, IsRoomy};
ghost use Rattle.block_handles.specs.Store.{region_len};
ghost use Rattle.block_handles.specs.Layout.{IsLaidOut};

use crate::arena::Arena;

/// A part of the region that no other locked block reaches into, and how many bytes it has
/// beside the unlocked blocks that lie in it.
#[derive(Clone, Copy)]
pub(crate) struct Stretch {
    pub(crate) from: u32,
    pub(crate) until: u32,
    pub(crate) room: u32,
}

impl Stretch {
    ghost use Rattle.block_handles.specs.Wider.{IsWider};

    /// This stretch or another, in which `taken` bytes are in use: the one with more room.
    fn or_wider(self, from: u32, until: u32, taken: u32) -> Stretch
        requires { from + taken ≤ until }
        ensures { IsWider self from until taken result }
    {
        let room = until - (from + taken);
        if room > self.room {
            Stretch { from, until, room }
        } else {
            self
        }
    }
}

/// The stretch with the most room, for a call that may move and replace the block in `but`.
pub(crate) fn roomiest(arena: &Arena, but: usize) -> Stretch
    requires { IsLaidOut arena.now }
    ensures { IsRoomiest arena.now but result.from result.until result.room }
{
    let len = arena.len();
    let mut best = Stretch {
        from: 0,
        until: 0,
        room: 0,
    };
    let mut from = 0;
    let mut scan = 0;
    let mut taken = 0;
    while let Some(slot) = arena.first_in(scan, len) {
        let place = arena.place(slot);
        let size = arena.size(slot);
        if slot != but {
            if arena.locks(slot) > 0 {
                best = best.or_wider(from, place, taken);
                from = place + size;
                taken = 0;
            } else {
                taken += size;
            }
        }
        scan = place + size;
    }
    best.or_wider(from, len, taken)
}

/// The first stretch after an offset with at least `least` bytes of room, for a call that may
/// move and replace the block in `but`. No block crosses the offset.
pub(crate) fn next_roomy(arena: &Arena, after: u32, but: usize, least: u32) -> Option<Stretch>
    requires laid { IsLaidOut arena.now }
    requires edge { IsEdge arena.now after }
    requires inside { after ≤ region_len arena.now }
    ensures roomy { IfSome result (λ s. IsRoomy arena.now but s.from s.until s.room) }
    ensures enough { IfSome result (λ s. least ≤ s.room) }
{
    let len = arena.len();
    let mut from = after;
    let mut scan = after;
    let mut taken = 0;
    while let Some(slot) = arena.first_in(scan, len) {
        let place = arena.place(slot);
        let size = arena.size(slot);
        if slot != but {
            if arena.locks(slot) > 0 {
                let room = place - (from + taken);
                if room >= least {
                    return Some(Stretch {
                        from,
                        until: place,
                        room,
                    });
                }
                from = place + size;
                taken = 0;
            } else {
                taken += size;
            }
        }
        scan = place + size;
    }
    let room = len - (from + taken);
    if room < least {
        return None;
    }
    Some(Stretch {
        from,
        until: len,
        room,
    })
}
