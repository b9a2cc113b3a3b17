//! What a line says: its labels, and the words after them.

ghost use Rattle.std.specs.Prelude.{◌≡◌, not};
ghost use Rattle.geos_text.specs.Words.{is_empty, words};
ghost use Rattle.geos_source.specs.Lines.{parted, IsStatement};

use crate::names::label_of;
use geos_text::first_word;

/// Whether a line has labels, and the first word after them with the rest of the line; `None` if there is no such word.
pub(crate) fn behind_labels(said: &[u8]) -> (bool, Option<(&[u8], &[u8])>)
    ensures labels { result.0 ≡ not (is_empty (parted (words said.now)).labels) }
    ensures statement { IsStatement (parted (words said.now)).statement result.1 }
{
    let mut has_labels = false;
    let mut rest = said;
    while let Some((word, behind)) = first_word(rest) {
        if label_of(word).is_none() {
            return (has_labels, Some((word, behind)));
        }
        has_labels = true;
        rest = behind;
    }
    (has_labels, None)
}
