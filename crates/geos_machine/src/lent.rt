//! The blocks of the VM file that a caller lends a run.

ghost use Rattle.std.specs.Prelude.{◌≡◌, true, ◌↔◌, ◌≤◌, IsTrue, [], ◌∷◌};
ghost use Rattle.std.specs.List.{list_all};
ghost use Rattle.geos_terms.specs.Names.{vm};
ghost use Rattle.geos_verify.specs.Lists.{all2};
ghost use Rattle.geos_semantics.specs.Meets.{holds};
ghost use Rattle.geos_semantics.specs.Lending.{given_slots};
ghost use Rattle.geos_machine.specs.Lent.{borrowed_count, borrowed_once, has_block, is_counted, is_handed, Lends};

use geos_image::SlotState;
use geos_kernel::Kernel;
use geos_terms::Name;
use vm_file::{Device, GROUP_UID};

/// Whether a block of the VM file that is no group is listed under the handle.
fn has_block<D: Device + Drop>(h: u16, kernel: &Kernel<D>) -> bool
    ensures { result ≡ has_block kernel.now.core h }
{
    // for the VM file that the model knows
    kernel.memory_is_legal();
    match kernel.vuid(h) {
        Ok(uid) => uid != GROUP_UID,
        Err(_) => false,
    }
}

/// Whether the handle is that of such a block, where the slot is borrowed, and otherwise 0.
fn is_handed<D: Device + Drop>(state: SlotState, h: u16, kernel: &Kernel<D>) -> bool
    ensures { result ≡ is_handed kernel.now.core state h }
{
    match state {
        SlotState::Vm {
            marked: _,
            borrowed: true,
        } => has_block(h, kernel),
        _ => h == 0,
    }
}

fn are_handed<D: Device + Drop>(
    states: &[SlotState; 4],
    handles: &[u16; 4],
    kernel: &Kernel<D>,
) -> bool
    ensures { result ≡ all2 (is_handed kernel.now.core) states.now handles.now }
{
    let [s0, s1, s2, s3] = *states;
    let [h0, h1, h2, h3] = *handles;
    is_handed(s0, h0, kernel)
        & is_handed(s1, h1, kernel)
        & is_handed(s2, h2, kernel)
        & is_handed(s3, h3, kernel)
}

/// Whether a borrowed slot is given the block: 1 or 0.
fn names(state: SlotState, handle: u16, h: u16) -> u16
    ensures value { result ≡ holds (given_slots (state ∷ []) (handle ∷ [])) (vm h) }
    ensures small { result ≤ 1 }
{
    match state {
        SlotState::Vm {
            marked: _,
            borrowed: true,
        } if handle == h => 1,
        _ => 0,
    }
}

/// How many borrowed slots are given the block.
fn named(states: &[SlotState; 4], handles: &[u16; 4], h: u16) -> u16
    ensures { result ≡ holds (given_slots states.now handles.now) (vm h) }
{
    let [s0, s1, s2, s3] = *states;
    let [h0, h1, h2, h3] = *handles;
    names(s0, h0, h) + names(s1, h1, h) + names(s2, h2, h) + names(s3, h3, h)
}

/// Whether the block of a handle is locked as often as handles name it.
fn is_counted<D: Device + Drop>(
    states: &[SlotState; 4],
    handles: &[u16; 4],
    h: u16,
    kernel: &Kernel<D>,
) -> bool
    ensures { result ≡ is_counted kernel.now.core states.now handles.now h }
{
    kernel.locks(Name::vm(h)) == named(states, handles, h)
}

/// The same of the block of each handle.
fn are_each_counted<D: Device + Drop>(
    states: &[SlotState; 4],
    handles: &[u16; 4],
    kernel: &Kernel<D>,
) -> bool
    ensures { result ≡ list_all (is_counted kernel.now.core states.now handles.now) handles.now }
{
    let [h0, h1, h2, h3] = *handles;
    is_counted(states, handles, h0, kernel)
        & is_counted(states, handles, h1, kernel)
        & is_counted(states, handles, h2, kernel)
        & is_counted(states, handles, h3, kernel)
}

/// 1 for a slot that is borrowed, otherwise 0.
fn borrowed_once(state: SlotState) -> u32
    ensures value { result ≡ borrowed_once state }
    ensures small { result ≤ 1 }
{
    match state {
        SlotState::Vm {
            marked: _,
            borrowed: true,
        } => 1,
        _ => 0,
    }
}

/// How many slots are borrowed.
fn borrowed_count(states: &[SlotState; 4]) -> u32
    ensures { result ≡ borrowed_count states.now }
{
    let [s0, s1, s2, s3] = *states;
    borrowed_once(s0) + borrowed_once(s1) + borrowed_once(s2) + borrowed_once(s3)
}

/// Whether each block of the VM file is locked as often as handles name it: those that are named are, and no other is
/// locked, since all counts together are as many as the slots that are borrowed.
fn are_counted<D: Device + Drop>(
    states: &[SlotState; 4],
    handles: &[u16; 4],
    kernel: &Kernel<D>,
) -> bool
    requires { all2 (is_handed kernel.now.core) states.now handles.now ≡ true }
    ensures { IsTrue result ↔ Lends kernel.now.core states.now handles.now }
{
    kernel.memory_is_legal();
    if kernel.vm_locks() != borrowed_count(states) {
        return false;
    }
    are_each_counted(states, handles, kernel)
}

/// Whether the handles name blocks for the slots that are borrowed, and each block of the VM file is locked as often as
/// they name it.
pub(crate) fn lends<D: Device + Drop>(
    states: &[SlotState; 4],
    handles: &[u16; 4],
    kernel: &Kernel<D>,
) -> bool
    ensures { IsTrue result ↔ Lends kernel.now.core states.now handles.now }
{
    are_handed(states, handles, kernel) && are_counted(states, handles, kernel)
}
