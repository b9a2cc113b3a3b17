//! Calls on the chunks of a block in memory: it grows where it must, and blocks of the VM file that
//! can be read again are discarded for it.
//!
//! They are the calls of the kernel on the chunks of a block that is locked, and those on the items
//! of a group. (GEOS SDK Concepts Book, chapters Local Memory and Database Library.)
#![tactic(auto)]

mod changes;
mod growth;
mod looks;
mod makes;
mod obstacle;

pub use changes::{change, contract};
pub use looks::{find, tell};
pub use makes::make_chunk;
