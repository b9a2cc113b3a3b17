//! The elements of an array in the bytes of a chunk.

/// The length of an array's header.
pub(crate) const HEADER: usize = 8;

/// An array in the bytes of a chunk, as docs/ARRAYS.md has it.
#[derive(Clone, Copy)]
pub(crate) struct Elements<'b> {
    bytes: &'b [u8],
    pub(crate) count: usize,
    /// The size of each element, 0 if sizes vary.
    pub(crate) size: usize,
}

/// The word at an offset, little end first. The greatest number if there is none.
fn word_at(bytes: &[u8], at: usize) -> usize {
    match bytes.get(at..at.saturating_add(2)) {
        Some([low, high]) => usize::from(*high) * 256 + usize::from(*low),
        _ => usize::MAX,
    }
}

impl<'b> Elements<'b> {
    /// The array of these bytes, if they are one.
    pub(crate) fn of(bytes: &'b [u8]) -> Option<Elements<'b>> {
        let found = Elements {
            bytes,
            count: word_at(bytes, 0),
            size: word_at(bytes, 2),
        };
        if word_at(bytes, 4) == 0 && word_at(bytes, 6) == HEADER && found.fits() {
            Some(found)
        } else {
            None
        }
    }

    /// Whether its elements end with its bytes.
    fn fits(&self) -> bool {
        let end = self.bytes.len();
        if self.size > 0 || self.count == 0 {
            return self.count.saturating_mul(self.size).saturating_add(HEADER) == end;
        }
        let mut last = self.count.saturating_mul(2).saturating_add(HEADER);
        let mut is_array = self.start(0) == last;
        for index in 0..self.count {
            let start = self.start(index);
            is_array = is_array && last <= start;
            last = start;
        }
        is_array && last <= end
    }

    /// The offset at which an element begins, or at which the bytes end.
    fn start(&self, index: usize) -> usize {
        if self.size > 0 {
            index.saturating_mul(self.size).saturating_add(HEADER)
        } else if index < self.count {
            word_at(self.bytes, index.saturating_mul(2).saturating_add(HEADER))
        } else {
            self.bytes.len()
        }
    }

    /// The bytes of an element.
    pub(crate) fn element(&self, index: usize) -> &'b [u8] {
        let start = self.start(index);
        let end = self.start(index.saturating_add(1));
        self.bytes.get(start..end).unwrap_or(&[])
    }
}
