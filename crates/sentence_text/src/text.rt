//! A text that is written part by part.

ghost use Rattle.std.specs.Prelude.{◌≡◌, ◌++◌, [], false, decimal, IfOk};

use geos_text::put_numbered;
use std::alloc::{AllocError, Global};

/// A text that is written part by part. After an allocation was refused, only that counts.
#[derive(Drop)]
pub struct Text {
    /// What was written.
    pub bytes: Vec<u8>,
    /// Whether an allocation was refused.
    pub failed: bool,
}

impl Text {
    /// Nothing was written.
    pub fn new(alloc: Global) -> Text
        ensures text { result.bytes.items ≡ [] }
        ensures failed { result.failed ≡ false }
    {
        Text {
            bytes: Vec::new(alloc),
            failed: false,
        }
    }

    /// All that was written. An error says that an allocation was refused.
    pub fn finish(self) -> Result<Vec<u8>, AllocError>
        ensures { IfOk result (λ bytes. (self.failed ≡ false) × (bytes.items ≡ self.bytes.items)) }
    {
        if self.failed {
            Err(AllocError)
        } else {
            Ok(self.bytes)
        }
    }

    /// Writes words.
    pub fn put(&mut self, words: &str)
        ensures { self.new.failed ≡ false → (self.old.failed ≡ false) × (self.new.bytes.items ≡ self.old.bytes.items ++ words.now) }
    {
        let done = self.bytes.extend_from_slice(words.as_bytes());
        self.failed = self.failed || done.is_err();
    }

    /// Writes bytes, as a name.
    pub fn put_bytes(&mut self, bytes: &[u8])
        ensures { self.new.failed ≡ false → (self.old.failed ≡ false) × (self.new.bytes.items ≡ self.old.bytes.items ++ bytes.now) }
    {
        let done = self.bytes.extend_from_slice(bytes);
        self.failed = self.failed || done.is_err();
    }

    /// Writes words, and a number in decimal digits after them.
    pub fn put_number(&mut self, words: &str, number: u64)
        ensures { self.new.failed ≡ false → (self.old.failed ≡ false)
            × (self.new.bytes.items ≡ self.old.bytes.items ++ words.now ++ decimal number) }
    {
        let done = put_numbered(&mut self.bytes, words, number);
        self.failed = self.failed || done.is_err();
    }
}
