//! Requests on texts and images, which run nothing.

use crate::given::Given;
use crate::request::{NewText, PagePaths, TextRequest};
use crate::streams::STANDARD;

/// The request of an `asm`.
fn asm_of<'a>(given: &Given<'_, 'a>) -> TextRequest<'a> {
    TextRequest::Assemble {
        text: given.word("IN"),
        image: given.word("OUT"),
        all_rows: given.flag("all-rows"),
    }
}

/// The request of an `explain`.
fn explain_of<'a>(given: &Given<'_, 'a>) -> TextRequest<'a> {
    let image = given.word("IMAGE");
    let names = given.flag("vars");
    match (given.setting("script"), given.setting("html")) {
        (Some(script), _) => TextRequest::ExplainScript {
            image,
            script,
            names,
        },
        (None, Some(page)) => TextRequest::Page(PagePaths { shown: image, page }),
        (None, None) => TextRequest::Explain(image),
    }
}

/// The paths of a `budget` or a `fmt`.
pub(crate) fn new_text_of<'a>(given: &Given<'_, 'a>) -> NewText<'a> {
    let text = given.word("TEXT");
    let in_place = given.flag("in-place");
    NewText {
        text,
        new: if in_place {
            text
        } else {
            given.setting("OUT").unwrap_or(STANDARD)
        },
        in_place,
    }
}

/// The request of the words after the name of a command, if it is one on texts or images.
pub(crate) fn text_request<'a>(name: &str, given: &Given<'_, 'a>) -> Option<TextRequest<'a>> {
    Some(match name {
        "asm" => asm_of(given),
        "budget" => TextRequest::Budget(new_text_of(given)),
        "fmt" => TextRequest::Format(new_text_of(given)),
        "list" => TextRequest::List {
            image: given.word("IMAGE"),
            assembly: given.flag("assembly"),
        },
        "check" => TextRequest::Check(given.word("IMAGE")),
        "explain" => explain_of(given),
        _ => return None,
    })
}
