//! The slot of each name.

ghost use Rattle.std.specs.Prelude.{◌≡◌, ◌<◌};
ghost use Rattle.block_handles.specs.Names.{IsHandle, first_slot, of_file, slot_of};

use geos_terms::{Name, Owner};

/// The slot of an owner's handle 1.
pub(crate) fn first_slot(owner: Owner) -> usize
    ensures { result ≡ first_slot owner }
{
    owner as usize * Name::HANDLES as usize
}

/// 1 for the VM file, and 0 for global memory.
pub(crate) fn of_file(owner: Owner) -> u32
    ensures { result ≡ of_file owner }
{
    owner as u32
}

/// The slot of a name; past the last slot if the handle can't be in use.
pub(crate) fn slot_of(name: Name) -> usize
    ensures { result ≡ slot_of name }
{
    // Of 0 this wraps, so that one test finds both kinds of handles that can't be in use.
    let below = usize::from(name.h).wrapping_sub(1);
    if Name::HANDLES as usize <= below {
        return 2 * Name::HANDLES as usize;
    }
    first_slot(name.owner) + below
}

/// The slot of a name whose handle can be in use.
pub(crate) fn slot_in_use(name: Name) -> usize
    requires { IsHandle name.h }
    ensures { result ≡ slot_of name }
{
    first_slot(name.owner) + (name.h as usize - 1)
}

/// The name of the block in a slot.
pub(crate) fn name_of(slot: usize) -> Name
    requires { slot < 2048 }
    ensures { slot_of result ≡ slot }
{
    let first = first_slot(Owner::Vm);
    if slot < first {
        Name::mem(slot as u16 + 1)
    } else {
        Name::vm((slot - first) as u16 + 1)
    }
}
