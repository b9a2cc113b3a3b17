//! What requests about documents are answered.

use crate::actions::put_actions;
use crate::asked::Asked;
use crate::documents::{MOST_BYTES, Page};
use crate::hover::put_hover;
use crate::methods::Method;
use crate::outline::{
    put_completion, put_definition, put_formatting, put_references, put_rename, put_symbols,
};
use crate::reply::Reply;
use geos_texts::formatted_text;
use std::alloc::{AllocError, Global};

/// The text in columns, or the source in one layout; none if it is too long, or if a word of a source is none.
fn in_columns(alloc: Global, document: Page<'_>) -> Result<Option<String>, AllocError> {
    if document.text.len() > MOST_BYTES {
        return Ok(None);
    }
    match formatted_text(alloc, document.uri, document.text.as_bytes())? {
        Some(made) => Ok(String::from_utf8(made).ok()),
        None => Ok(None),
    }
}

/// Writes the result of a request about a document; `null` for a method that answers none.
fn put_found(
    out: &mut Reply,
    method: Method,
    document: Page<'_>,
    asked: &Asked<'_>,
) -> Result<(), AllocError> {
    match method {
        Method::Hover => put_hover(out, document, asked)?,
        Method::Actions => put_actions(out, document, asked),
        Method::Definition => put_definition(out, document, asked),
        Method::References => put_references(out, document, asked),
        Method::Rename => put_rename(out, document, asked),
        Method::Symbols => put_symbols(out, document),
        Method::Completion => put_completion(out, document),
        Method::Formatting => {
            let made = in_columns(out.alloc, document)?;
            put_formatting(out, document.text, made)
        }
        _ => out.raw("null"),
    }
    Ok(())
}

/// Writes the result of a request about a document.
pub(crate) fn put_answer(out: &mut Reply, method: Method, document: Page<'_>, asked: &Asked<'_>) {
    if put_found(out, method, document, asked).is_err() {
        out.fail()
    }
}
