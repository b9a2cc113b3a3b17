//! Where the lines of a dump are.

use geos_text::{first_word, number};

/// What a line of a dump is about: a directory, a block in it, a chunk of the block, or bytes of the chunk. The numbers of what it is not
/// about are 0. Places ascend in a dump.
#[derive(Clone, Copy)]
pub(crate) struct Place {
    /// 1 is the current directory, 2 the saved one, 3 the end of the dump.
    directory: u8,
    block: u16,
    chunk: u16,
    /// The line of bytes, counted from 1.
    bytes: u16,
}

/// The place of the line of a directory.
fn of_directory(directory: u8) -> Place {
    Place {
        directory,
        block: 0,
        chunk: 0,
        bytes: 0,
    }
}

/// The number that a line begins with.
fn number_in(line: &[u8]) -> u16 {
    match first_word(line) {
        Some((word, _rest)) => number(word).unwrap_or(0),
        None => 0,
    }
}

impl Place {
    /// The place before the first line.
    pub(crate) fn start() -> Place {
        of_directory(0)
    }

    /// The place of a line after the line at this place. An empty line is the end.
    pub(crate) fn next(self, line: &[u8]) -> Place {
        let Some((word, rest)) = first_word(line) else {
            return of_directory(3);
        };
        if word.starts_with(b"current") {
            of_directory(1)
        } else if word.starts_with(b"saved") {
            of_directory(2)
        } else if word.starts_with(b"chunk") {
            self.of_chunk(number_in(rest))
        } else if word.ends_with(b":") {
            self.of_more_bytes()
        } else {
            self.of_block(number_in(line))
        }
    }

    /// The place of the line of a block in the same directory.
    fn of_block(self, block: u16) -> Place {
        Place {
            directory: self.directory,
            block,
            chunk: 0,
            bytes: 0,
        }
    }

    /// The place of the line of a chunk in the same block.
    fn of_chunk(self, chunk: u16) -> Place {
        Place {
            directory: self.directory,
            block: self.block,
            chunk,
            bytes: 0,
        }
    }

    /// The place of the next line of bytes in the same chunk.
    fn of_more_bytes(self) -> Place {
        Place {
            directory: self.directory,
            block: self.block,
            chunk: self.chunk,
            bytes: self.bytes.saturating_add(1),
        }
    }

    /// Whether it is before another place.
    pub(crate) fn is_before(self, other: Place) -> bool {
        if self.directory != other.directory {
            self.directory < other.directory
        } else if self.block != other.block {
            self.block < other.block
        } else if self.chunk != other.chunk {
            self.chunk < other.chunk
        } else {
            self.bytes < other.bytes
        }
    }

    /// Whether it is in a directory, and not the directory.
    pub(crate) fn is_in_directory(self) -> bool {
        self.block != 0
    }

    /// Whether it is in a block, and not the block.
    pub(crate) fn is_in_block(self) -> bool {
        self.chunk != 0
    }

    /// Whether it is in a chunk, and not the chunk.
    pub(crate) fn is_in_chunk(self) -> bool {
        self.bytes != 0
    }
}
