//! The handle by which C has a kernel.

ghost use Rattle.std.specs.Prelude.{◌≡◌, ◌≢◌};
ghost use Rattle.takhvoi.specs.declared.system.System.{System};
ghost use Rattle.takhvoi.specs.contracts.system.System.{the_row as system_row};
ghost use Rattle.std.specs.contracts.impls.GlobalAllocator.TheImpl.{ghosts as heap};
ghost use Rattle.takhvoi.specs.Held.{held};

use crate::loose::Loose;
use crate::system::System;
use std::alloc::Global;
use std::marker::Model;
use std::ptr;

/// A pointer to a kernel and what runs over it; none if `live` is 0.
#[repr(C)]
#[derive(Drop)]
pub struct Handle {
    pub(crate) at: *mut (),
    pub(crate) live: u32,
    pub(crate) alloc: Global,
    pub(crate) ghost value: { System },
}

impl Model for Handle {
    ghost also_owns = { λ h. held h.live (heap.dealloc_token h.alloc) system_row h.at h.value };
}

impl Handle {
    /// A handle that holds nothing.
    pub(crate) fn none(alloc: Global) -> Handle
        ensures { result.live ≡ 0 }
    {
        Handle {
            at: ptr::null_mut(),
            live: 0,
            alloc,
        }
    }

    /// A handle with the value of the box.
    pub(crate) fn of(loose: Loose<System, Global>) -> Handle
        ensures live { result.live ≡ 1 }
        ensures value { result.value ≡ loose.value }
    {
        let Loose { at, alloc } = loose;
        Handle {
            at: at as *mut (),
            live: 1,
            alloc,
        }
    }

    /// The box, taken apart.
    pub(crate) fn into_loose(self) -> Loose<System, Global>
        requires { self.live ≢ 0 }
        ensures { result.value ≡ self.value }
    {
        let Handle { at, live: _, alloc } = self;
        Loose {
            at: at as *mut System,
            alloc,
        }
    }

    /// The number `live`, and the handle itself.
    pub(crate) fn look(self) -> (u32, Handle)
        ensures live { result.0 ≡ self.live }
        ensures handle { result.1 ≡ self }
    {
        (self.live, self)
    }
}
