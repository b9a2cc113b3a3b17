//! What is probably not meant, and what helps.

use std::alloc::{AllocError, Global};

/// What a warning says.
#[derive(Drop)]
pub struct Advice {
    /// What is probably not meant.
    pub fact: Vec<u8>,
    /// What helps. Empty if that is not known.
    pub cure: Vec<u8>,
}

impl Advice {
    /// The sentence of both. `AllocError` if the allocator refuses memory.
    pub fn sentence(&self, alloc: Global) -> Result<Vec<u8>, AllocError> {
        let mut told = Vec::from_slice(alloc, &self.fact)?;
        if !self.cure.is_empty() {
            told.extend_from_slice(b": ")?;
            told.extend_from_slice(&self.cure)?;
        }
        Ok(told)
    }
}
