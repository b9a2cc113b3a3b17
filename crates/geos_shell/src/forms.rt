//! How outputs are written, and what is committed at the end.

use crate::given::Given;

/// How an output word is written.
#[derive(Clone, Copy)]
pub enum Digits {
    /// In decimal, on a line.
    Decimal,
    /// In hexadecimal digits, on a line.
    Hex,
    /// As a number that may be below 0, on a line.
    Signed,
    /// As bytes of a text, all of a call on one line.
    Text,
}

/// How outputs are written.
#[derive(Clone, Copy)]
pub struct OutputForm {
    pub digits: Digits,
    /// Whether each line begins with its command.
    pub label: bool,
}

impl OutputForm {
    /// The requested form.
    pub(crate) fn of(given: &Given<'_, '_>) -> OutputForm {
        let digits = if given.flag("hex") {
            Digits::Hex
        } else if given.flag("signed") {
            Digits::Signed
        } else if given.flag("text") {
            Digits::Text
        } else {
            Digits::Decimal
        };
        OutputForm {
            digits,
            label: given.flag("label"),
        }
    }

    /// Whether each word is in decimal on a line, and nothing else is.
    pub fn is_plain(&self) -> bool {
        matches!(self.digits, Digits::Decimal) && !self.label
    }
}

/// The commit at the end of a script or a call.
#[derive(Clone, Copy)]
pub enum EndCommit {
    /// The file keeps its blocks as they are.
    Update,
    /// The same, and the blocks as they are become the saved ones.
    Save,
}

impl EndCommit {
    /// The requested commit, if there is one.
    pub(crate) fn of(given: &Given<'_, '_>) -> Option<EndCommit> {
        if given.flag("update") {
            Some(EndCommit::Update)
        } else if given.flag("save") {
            Some(EndCommit::Save)
        } else {
            None
        }
    }
}
