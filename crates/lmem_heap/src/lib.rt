//! Heaps of chunks in a block of bytes.
//!
//! A heap has a header, a table of chunk handles, and after it chunks and free chunks that
//! tile the block. A chunk handle is the offset of the chunk's entry in the table, and the
//! entry holds the chunk's offset: so chunks move and their handles stay. Every call works
//! within the block and allocates nothing. The functions that only read a heap, check it or
//! make a fresh one are in `lmem_block`, and exported here too. (GEOS SDK Concepts Book,
//! chapter Local Memory.)
#![tactic(auto)]

ghost use Rattle.geos_terms.specs.Writes.{WritesStayInTheirChunk};

mod allocate;
mod chunks;
mod compact;
mod enlarge;
mod error;
mod extents;
mod holes;
mod resize;
mod room;
mod runs;
mod slides;
mod table;
mod tail;

pub use allocate::{alloc, free};
pub use compact::contract;
pub use enlarge::enlarged;
pub use error::{DeleteError, InsertError, ReallocError, RoomError};
pub use lmem_block::{BadChunk, check, init, locate, next, place, size, total_free};
pub use resize::{delete, insert, realloc};

/// Bytes that are written within the place of a chunk change only that chunk: every chunk stays
/// where it is, every other chunk has its bytes, and the block still is a heap. So a caller that
/// knows a place may write there without a call.
pub fn writes_stay_in_their_chunk()
    ensures { WritesStayInTheirChunk }
{}
