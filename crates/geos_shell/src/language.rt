//! The language of a text.

use crate::given::Given;

/// In which language a text is written.
#[derive(Clone, Copy)]
pub enum Language {
    /// The ending of its path tells: `.tkv` is that of the structured language.
    ByEnding,
    Assembly,
    Structured,
}

/// A path of a text or an image, and the language of a text there.
#[derive(Clone, Copy)]
pub struct TextPath<'a> {
    pub path: &'a str,
    pub language: Language,
}

/// Whether the word names a language.
pub(crate) fn is_language(word: &str) -> bool {
    word == "asm" || word == "tkv"
}

impl Language {
    /// The requested one.
    pub(crate) fn of(given: &Given<'_, '_>) -> Language {
        match given.setting("language") {
            Some("asm") => Language::Assembly,
            Some(_) => Language::Structured,
            None => Language::ByEnding,
        }
    }

    /// The path of a text in this language.
    pub fn at(self, path: &str) -> TextPath<'_> {
        TextPath {
            path,
            language: self,
        }
    }
}

impl<'a> TextPath<'a> {
    /// The path of a text whose language its ending tells.
    pub fn by_ending(path: &'a str) -> TextPath<'a> {
        Language::ByEnding.at(path)
    }

    /// Whether it is a source of the structured language.
    pub fn is_source(&self) -> bool {
        match self.language {
            Language::ByEnding => self.path.ends_with(".tkv"),
            Language::Assembly => false,
            Language::Structured => true,
        }
    }
}
