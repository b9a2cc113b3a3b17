//! The request of a `dump`.

use crate::given::Given;

/// The columns of a line of sixteen bytes.
const COLUMNS_OF_BYTES: u32 = 67;

/// To print a VM file, or a part of it.
#[derive(Clone, Copy)]
pub struct DumpRequest<'a> {
    pub file: &'a str,
    /// Whether the bytes of chunks are printed.
    pub chunks: bool,
    /// Whether their lines are short: the terminal has too few columns for long ones.
    pub short: bool,
    /// Whether they are printed by the elements of arrays.
    pub arrays: bool,
    /// Whether only the saved directory is printed.
    pub saved: bool,
    /// The handle of the only block that is printed.
    pub block: Option<u16>,
    /// The handle of the only chunk that is printed of it.
    pub chunk: Option<u16>,
}

/// The request of a `dump`.
pub(crate) fn dump_of<'a>(given: &Given<'_, 'a>) -> DumpRequest<'a> {
    DumpRequest {
        file: given.word("FILE"),
        chunks: given.flag("chunks"),
        short: matches!(given.columns, Some(columns) if columns < COLUMNS_OF_BYTES),
        arrays: given.flag("arrays"),
        saved: given.flag("saved"),
        block: given.short_if_any("H"),
        chunk: given.short_if_any("C"),
    }
}
