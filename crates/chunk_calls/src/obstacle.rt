//! Why a call on the chunks of a block can't be done, as heaps and arrays report it.

ghost use Rattle.std.specs.Prelude.{◌≡◌};
ghost use Rattle.chunk_calls.specs.Refused.{why_no_array, why_no_chunk, why_no_element, why_not_appended};
ghost use Rattle.chunk_calls.specs.Refused.{why_not_deleted, why_not_grown, why_not_inserted, why_not_resized};

use chunk_array::{AppendError, ArrayError, ElementError, GrowthError};
use geos_terms::Refusal;
use lmem_heap::{BadChunk, DeleteError, InsertError, ReallocError, RoomError};

/// Why a call can't be done.
#[derive(Clone, Copy)]
pub(crate) enum Obstacle {
    /// It is refused.
    Refused(Refusal),
    /// Its block has too little room.
    Room(RoomError),
}

/// The kernel's refusal if no chunk was found.
pub(crate) fn why_no_chunk(why: BadChunk) -> Refusal
    ensures { result ≡ why_no_chunk why }
{
    let BadChunk = why;
    Refusal::BadChunk
}

/// Why a chunk did not get another length.
pub(crate) fn why_not_resized(why: ReallocError) -> Obstacle
    ensures { result ≡ why_not_resized why }
{
    match why {
        ReallocError::BadChunk => Obstacle::Refused(Refusal::BadChunk),
        ReallocError::Room(room) => Obstacle::Room(room),
    }
}

/// Why no bytes were inserted.
pub(crate) fn why_not_inserted(why: InsertError) -> Obstacle
    ensures { result ≡ why_not_inserted why }
{
    match why {
        InsertError::BadChunk => Obstacle::Refused(Refusal::BadChunk),
        InsertError::Range => Obstacle::Refused(Refusal::Range),
        InsertError::Room(room) => Obstacle::Room(room),
    }
}

/// The kernel's refusal if no bytes were deleted.
pub(crate) fn why_not_deleted(why: DeleteError) -> Refusal
    ensures { result ≡ why_not_deleted why }
{
    match why {
        DeleteError::BadChunk => Refusal::BadChunk,
        DeleteError::Range => Refusal::Range,
    }
}

/// Why no element was appended.
pub(crate) fn why_not_appended(why: AppendError) -> Obstacle
    ensures { result ≡ why_not_appended why }
{
    match why {
        AppendError::BadChunk => Obstacle::Refused(Refusal::BadChunk),
        AppendError::BadArray => Obstacle::Refused(Refusal::BadArray),
        AppendError::Room(room) => Obstacle::Room(room),
    }
}

/// Why no element was inserted, or none got another size.
pub(crate) fn why_not_grown(why: GrowthError) -> Obstacle
    ensures { result ≡ why_not_grown why }
{
    match why {
        GrowthError::BadChunk => Obstacle::Refused(Refusal::BadChunk),
        GrowthError::BadArray => Obstacle::Refused(Refusal::BadArray),
        GrowthError::BadElement => Obstacle::Refused(Refusal::BadElement),
        GrowthError::Room(room) => Obstacle::Room(room),
    }
}

/// The kernel's refusal if no array was found.
pub(crate) fn why_no_array(why: ArrayError) -> Refusal
    ensures { result ≡ why_no_array why }
{
    match why {
        ArrayError::BadChunk => Refusal::BadChunk,
        ArrayError::BadArray => Refusal::BadArray,
    }
}

/// The kernel's refusal if no element was found.
pub(crate) fn why_no_element(why: ElementError) -> Refusal
    ensures { result ≡ why_no_element why }
{
    match why {
        ElementError::BadChunk => Refusal::BadChunk,
        ElementError::BadArray => Refusal::BadArray,
        ElementError::BadElement => Refusal::BadElement,
    }
}
