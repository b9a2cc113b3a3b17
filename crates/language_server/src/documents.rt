//! The documents that an editor has open.

use crate::positions::line_of;
use std::alloc::Global;

/// The maximum number of open documents, and of bytes of each.
pub(crate) const MOST_DOCUMENTS: usize = 256;

pub(crate) const MOST_BYTES: usize = 1_048_576;

/// A document as it is read.
#[derive(Clone, Copy)]
pub(crate) struct Page<'d> {
    /// Its name.
    pub(crate) uri: &'d str,
    /// Its text as the editor has it.
    pub(crate) text: &'d str,
}

impl<'d> Page<'d> {
    /// Whether it is a source of the structured language, which the ending of its name tells.
    pub(crate) fn is_source(&self) -> bool {
        self.uri.ends_with(".tkv")
    }

    /// The line with this number, without its end.
    pub(crate) fn line(&self, line: usize) -> &'d str {
        line_of(self.text, line)
    }
}

/// A document.
#[derive(Drop)]
pub(crate) struct Document {
    pub(crate) uri: String,
    pub(crate) text: String,
}

/// The documents that are open.
#[derive(Drop)]
pub(crate) struct Documents {
    open: Vec<Document>,
}

impl Documents {
    /// None.
    pub(crate) fn new(alloc: Global) -> Documents {
        Documents {
            open: Vec::new(alloc),
        }
    }

    /// The document with the name, if it is open.
    pub(crate) fn find(&self, uri: &str) -> Option<Page<'_>> {
        for document in &self.open {
            if document.uri.as_str() == uri {
                return Some(Page {
                    uri: &document.uri,
                    text: &document.text,
                });
            }
        }
        None
    }

    /// Forgets the document with the name.
    pub(crate) fn close(&mut self, uri: &str) {
        self.open.retain(|document| document.uri.as_str() != uri)
    }

    /// Stores a document, replacing the one with its name. Does nothing if the maximum number of documents is open.
    pub(crate) fn keep(&mut self, document: Document) {
        self.close(&document.uri);
        if self.open.len() < MOST_DOCUMENTS {
            // A document for which there is no memory is not open.
            let _ = self.open.push(document);
        }
    }
}
