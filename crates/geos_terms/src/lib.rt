//! Definitions that several crates use, and their general lemmas. The only code is the names of
//! blocks, their sizes and the refusals.
//!
//! `specs/Chunks.antt` has the chunks of a heap as one list, what they take, and what the
//! calls on a heap do to them; `specs/Block.antt` what the bytes of a block encode;
//! `specs/Heap.antt` which bytes are a heap, `specs/HeapTest.antt` a test of that; `specs/Arrays.antt` arrays in a chunk. The definitions
//! of memory and of the kernel's calls are in `geos_calls`. docs/MODEL.md says all of it in words. (GEOS SDK Concepts Book, chapters
//! Memory Management and Local Memory.)
#![tactic(auto)]

mod law;
mod name;
mod refusal;
mod size;

pub use law::heap_test_is_exact;
pub use name::{Name, Owner};
pub use refusal::Refusal;
pub use size::{MOST_BLOCK_BYTES, is_block_size};
