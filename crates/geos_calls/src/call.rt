//! Calls on the chunks of a locked block as values, a type for each kind of answer.
//!
//! No value names its block. Chunks are named by their handles `c`, elements of arrays by their
//! indexes `i`; offsets `at` and lengths `n` are in bytes.

/// A call that changes chunks, and answers nothing.
#[derive(Clone, Copy)]
pub enum Change {
    /// Frees a chunk.
    Lfree { c: u16 },
    /// Gives a chunk so many bytes.
    Lrealloc { c: u16, n: u16 },
    /// Inserts zero bytes into a chunk.
    Lins { c: u16, at: u16, n: u16 },
    /// Deletes bytes of a chunk.
    Ldel { c: u16, at: u16, n: u16 },
    /// Moves the chunks together.
    Lcontract,
    /// Puts an element of zeros after the others of an array.
    Caadd { c: u16, n: u16 },
    /// Puts one at an index, which may be the count.
    Cains { c: u16, i: u16, n: u16 },
    /// Takes an element out.
    Cadel { c: u16, i: u16 },
    /// Takes all elements out.
    Cazero { c: u16 },
    /// Gives an element so many bytes.
    Caresize { c: u16, i: u16, n: u16 },
}

/// A call that makes a chunk, and answers its handle.
#[derive(Clone, Copy)]
pub enum Make {
    /// Makes a chunk of so many zero bytes.
    Lalloc { n: u16 },
    /// Makes an array with no element, of elements of so many bytes each, or of varying sizes
    /// where that is 0.
    Canew { element_size: u16 },
}

/// A call that tells a number of chunks.
#[derive(Clone, Copy)]
pub enum Ask {
    /// Tells the length of a chunk.
    Lsize { c: u16 },
    /// Tells the count of an array's elements.
    Cacount { c: u16 },
}

/// A call that refers to bytes of a chunk, which must be `n` at least.
#[derive(Clone, Copy)]
pub enum Refer {
    /// Refers to a chunk.
    Deref { c: u16, n: u16 },
    /// Refers to an element of an array.
    Caelt { c: u16, i: u16, n: u16 },
}
