//! VM blocks in memory: the blocks of a VM file that lie in the region beside other blocks, and
//! which of them are marked as changed.
//!
//! A block that is neither marked nor locked can be read from the file again, so it is discarded
//! where another block needs its room. (GEOS SDK Concepts Book, chapter Virtual Memory.)
#![tactic(auto)]

mod blocks;
mod bring;
mod commit;
mod entries;
mod error;
mod law;
mod locks;
mod make;
mod maps;
mod resident;
mod room;

pub use blocks::VmBlocks;
pub use entries::Held;
pub use error::{BringError, FreeError, LockError, NewError, NoRoom};
