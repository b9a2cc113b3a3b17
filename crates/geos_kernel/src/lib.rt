//! The kernel's calls: on blocks of global memory, the chunks in them and the arrays in chunks; on blocks
//! of a VM file, groups and items; and on the file, which they keep on its device.
//!
//! Each call is a row of one table (docs/MODEL.md): its refusals in order, what it does to
//! memory, its answer, and which references it makes stale. (GEOS SDK Concepts Book, chapters
//! Memory Management, Local Memory, Virtual Memory and Database Library.)
#![tactic(auto)]

mod access;
mod array_calls;
mod in_memory;
mod item_calls;
mod kernel;
mod law;
mod local_calls;
mod noted;
mod refused;
mod shown;
mod span;
mod vm_calls;

pub use geos_calls::{Ask, Change, Make, Refer};
pub use geos_terms::{Name, Owner, Refusal};
pub use in_memory::kernel_in_memory;
pub use kernel::Kernel;
pub use law::{calls_answer_in_turn, later_calls_answer_alike};
pub use span::Span;
