//! Which part of a file is printed, and how.

use crate::sides::Side;

/// How much is printed of a block.
#[derive(Clone, Copy)]
pub enum Detail {
    /// A line for each block.
    Lines,
    /// Below it the bytes of its chunks.
    Bytes,
    /// The same, but each element of a chunk that is an array by itself.
    Elements,
    /// JSON objects: one for the block and one for each chunk.
    Objects,
    /// The same, and the bytes of its chunks.
    WholeObjects,
}

/// Which part of a file is printed, and how.
#[derive(Clone, Copy)]
pub struct View {
    /// How much is printed of a block.
    pub detail: Detail,
    /// Whether a line of bytes has eight of them, and not sixteen.
    pub short: bool,
    /// The directory that is printed; with none, both are.
    pub side: Option<Side>,
    /// The handle of the block or group that is printed; with none, all are, with their directory.
    pub block: Option<u16>,
    /// The handle of the chunk or item that is printed of it; with none, all are, with their block.
    pub chunk: Option<u16>,
}

impl View {
    /// Whether blocks of the directory on a side are printed.
    fn has_side(self, side: Side) -> bool {
        matches!(
            (self.side, side),
            (None, _) | (Some(Side::Current), Side::Current) | (Some(Side::Saved), Side::Saved)
        )
    }

    /// Whether the line of the directory on a side is printed.
    pub(crate) fn has_directory(self, side: Side) -> bool {
        self.block.is_none() && self.has_side(side)
    }

    /// Whether the block on a side is printed, or chunks of it.
    pub(crate) fn has_block(self, side: Side, h: u16) -> bool {
        self.has_side(side) && self.block.unwrap_or(h) == h
    }

    /// Whether a chunk is printed of such a block.
    pub(crate) fn has_chunk(self, c: u16) -> bool {
        self.chunk.unwrap_or(c) == c
    }
}
