//! Words that are read one after another, of a line or of a command line.

ghost use Rattle.std.specs.Prelude.{◌≡◌, [], ◌∷◌, IfNone, IfSome};
ghost use Rattle.script_commands.specs.Reading.{words_of};

use geos_text::first_word;

/// Words that are read one after another.
#[derive(Clone, Copy)]
pub(crate) enum Words<'a> {
    /// The words of a line.
    Line(&'a [u8]),
    /// The words of a command line, each separate.
    Apart(&'a [&'a str]),
}

/// The first word, and those after it; `None` if there is no word.
pub(crate) fn first_of<'a>(words: Words<'a>) -> Option<(&'a [u8], Words<'a>)>
    ensures none { IfNone result (words_of words.entry ≡ []) }
    ensures some { IfSome result (λ r. words_of words.entry ≡ r.0.now ∷ words_of r.1) }
{
    match words {
        Words::Line(line) => {
            let (word, behind) = first_word(line)?;
            Some((word, Words::Line(behind)))
        }
        Words::Apart(apart) => {
            let (word, behind) = apart.split_first()?;
            Some((word.as_bytes(), Words::Apart(behind)))
        }
    }
}
