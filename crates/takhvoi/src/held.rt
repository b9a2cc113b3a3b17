//! The kernel of a handle is taken out, and put back.

ghost use Rattle.std.specs.Prelude.{◌≡◌, ◌≢◌, IfNone, IfSome};

use crate::handle::Handle;
use crate::loose::Loose;
use crate::system::System;
use std::alloc::Global;
use std::mem;

/// Takes the kernel out of a handle, if it has one.
pub(crate) fn take(alloc: Global, handle: &mut Handle) -> Option<Box<System>>
    ensures some { IfSome result (λ system. (handle.old.live ≢ 0) × (system.value ≡ handle.old.value)) }
    ensures none { IfNone result (handle.old.live ≡ 0) }
    ensures taken { handle.new.live ≡ 0 }
{
    let held = mem::replace(handle, Handle::none(alloc));
    let (live, held) = held.look();
    if live == 0 {
        return None;
    }
    Some(held.into_loose().into_box())
}

/// Puts the kernel into an empty handle.
pub(crate) fn put(handle: &mut Handle, system: Box<System>)
    requires { handle.old.live ≡ 0 }
    ensures live { handle.new.live ≡ 1 }
    ensures value { handle.new.value ≡ system.value }
{
    *handle = Handle::of(Loose::of(system));
}
