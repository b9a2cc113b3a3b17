//! The blocks that a call passes to a routine.

ghost use Rattle.std.specs.Prelude.{◌≡◌, ◌<◌, ◌≤◌, ◌+◌, ◌++◌, length};
ghost use Rattle.script_commands.specs.Lent.{lent_handle, lent_handles};

use arrayvec::ArrayVec;
use geos_image::SlotState;

/// Adds the handle for a slot, if it is borrowed.
fn lend(lent: &mut ArrayVec<u16, 4>, state: SlotState, handle: u16)
    requires { length lent.old.items < 4 }
    ensures items { lent.new.items ≡ lent.old.items ++ lent_handle state handle }
    ensures one { length lent.new.items ≤ length lent.old.items + 1 }
{
    if !state.is_own() {
        lent.push(handle);
    }
}

/// The handles of slots that are borrowed, in their order.
pub fn lent_handles(states: &[SlotState; 4], handles: &[u16; 4]) -> ArrayVec<u16, 4>
    ensures { result.items ≡ lent_handles states.now handles.now }
{
    let [s0, s1, s2, s3] = *states;
    let [h0, h1, h2, h3] = *handles;
    let mut lent = ArrayVec::new();
    lend(&mut lent, s0, h0);
    lend(&mut lent, s1, h1);
    lend(&mut lent, s2, h2);
    lend(&mut lent, s3, h3);
    lent
}
