//! The names of blocks.

ghost use Rattle.std.specs.Prelude.{◌≡◌};

/// Whose range of handles a name is of. The two ranges are apart: handle 1 of one owner and
/// handle 1 of the other name different blocks.
#[derive(Clone, Copy, Debug, PartialEq, Eq)]
pub enum Owner {
    /// Blocks of global memory.
    Mem,
    /// Blocks of a VM file.
    Vm,
}

/// The name of a block: an owner and a handle, which is from 1 to [`Name::HANDLES`] where the
/// name can be in use.
#[derive(Clone, Copy, Debug, PartialEq, Eq)]
pub struct Name {
    pub owner: Owner,
    pub h: u16,
}

impl Name {
    ghost use Rattle.geos_terms.specs.Names.{mem, vm};

    /// How many handles each owner has.
    pub const HANDLES: u16 = 1024;

    /// The name of a block of global memory.
    pub fn mem(handle: u16) -> Name
        ensures { result ≡ mem handle }
    {
        Name {
            owner: Owner::Mem,
            h: handle,
        }
    }

    /// The name of a block of a VM file.
    pub fn vm(handle: u16) -> Name
        ensures { result ≡ vm handle }
    {
        Name {
            owner: Owner::Vm,
            h: handle,
        }
    }
}
