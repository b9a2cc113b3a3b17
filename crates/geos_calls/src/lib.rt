//! The model's memory, the table of the kernel's calls and its lemmas, and calls on chunks as
//! values.
//!
//! `specs/Memory.antt` has blocks by their names, and `specs/VmFile.antt` the VM file;
//! `specs/Effects.antt` what a call comes to; `specs/Calls.antt`, `specs/ArrayCalls.antt`,
//! `specs/VmCalls.antt` and `specs/ItemCalls.antt` a row for each call; `specs/ChunkCalls.antt`
//! the edit and the row of each value; `specs/Tight.antt` when a call may be refused for room;
//! `specs/Legal.antt` what every memory of a kernel is. docs/MODEL.md says all of it in words.
//! (GEOS SDK Concepts Book, chapters Memory Management, Local Memory, Virtual Memory and
//! Database Library.)
#![tactic(auto)]

mod call;
mod law;

pub use call::{Ask, Change, Make, Refer};
pub use law::{rows_keep_memory, rows_leave};
