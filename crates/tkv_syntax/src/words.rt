//! The words of the language, and names.

/// A word of the language, or one of the kinds of words that an author chooses.
#[derive(Clone, Copy, PartialEq, Eq)]
pub enum Word {
    /// The end of the source.
    End,
    /// A name.
    Named,
    /// A number.
    Number,
    Pub,
    Inline,
    Fn,
    Const,
    Struct,
    Use,
    Let,
    If,
    Else,
    While,
    Loop,
    For,
    In,
    Step,
    Max,
    Try,
    As,
    Out,
    Dirty,
    Assert,
    Fail,
    Return,
    Break,
    Continue,
    WhyWord,
    To,
    Arrow,
    Gives,
    Same,
    Unlike,
    AtMost,
    AtLeast,
    Both,
    Either,
    Left,
    Right,
    Plus,
    Minus,
    Times,
    Over,
    Rest,
    Mask,
    Less,
    More,
    Set,
    Not,
    Asks,
    Dot,
    Comma,
    Colon,
    Stop,
    Paren,
    ParenEnd,
    Brace,
    BraceEnd,
    Bracket,
    BracketEnd,
    /// What begins and ends a string.
    Quote,
}

/// Each word with its text, or with what messages call it. The order is that of `Word`; longer signs come first.
static WORDS: [(Word, &str); 61] = [
    (Word::End, "the end"),
    (Word::Named, "a name"),
    (Word::Number, "a number"),
    (Word::Pub, "pub"),
    (Word::Inline, "inline"),
    (Word::Fn, "fn"),
    (Word::Const, "const"),
    (Word::Struct, "struct"),
    (Word::Use, "use"),
    (Word::Let, "let"),
    (Word::If, "if"),
    (Word::Else, "else"),
    (Word::While, "while"),
    (Word::Loop, "loop"),
    (Word::For, "for"),
    (Word::In, "in"),
    (Word::Step, "step"),
    (Word::Max, "max"),
    (Word::Try, "try"),
    (Word::As, "as"),
    (Word::Out, "out"),
    (Word::Dirty, "dirty"),
    (Word::Assert, "assert"),
    (Word::Fail, "fail"),
    (Word::Return, "return"),
    (Word::Break, "break"),
    (Word::Continue, "continue"),
    (Word::WhyWord, "why"),
    (Word::To, ".."),
    (Word::Arrow, "->"),
    (Word::Gives, "=>"),
    (Word::Same, "=="),
    (Word::Unlike, "!="),
    (Word::AtMost, "<="),
    (Word::AtLeast, ">="),
    (Word::Both, "&&"),
    (Word::Either, "||"),
    (Word::Left, "<<"),
    (Word::Right, ">>"),
    (Word::Plus, "+"),
    (Word::Minus, "-"),
    (Word::Times, "*"),
    (Word::Over, "/"),
    (Word::Rest, "%"),
    (Word::Mask, "&"),
    (Word::Less, "<"),
    (Word::More, ">"),
    (Word::Set, "="),
    (Word::Not, "!"),
    (Word::Asks, "?"),
    (Word::Dot, "."),
    (Word::Comma, ","),
    (Word::Colon, ":"),
    (Word::Stop, ";"),
    (Word::Paren, "("),
    (Word::ParenEnd, ")"),
    (Word::Brace, "{"),
    (Word::BraceEnd, "}"),
    (Word::Bracket, "["),
    (Word::BracketEnd, "]"),
    (Word::Quote, "\""),
];

impl Word {
    /// Its text, or what messages call it.
    pub fn text(self) -> &'static str {
        WORDS[self as usize].1
    }
}

/// A name: up to 16 letters, digits and underscores, then zeros.
pub type Name = [u8; 16];

/// The byte at a place, or 0 past the end.
pub(crate) fn byte_at(text: &[u8], at: usize) -> u8 {
    match text.get(at) {
        Some(byte) => *byte,
        None => 0,
    }
}

/// Whether a name may have the byte.
pub(crate) fn is_letter(byte: u8) -> bool {
    byte.is_ascii_alphanumeric() || byte == b'_'
}

/// The name at an offset of a source: its first 16 letters.
pub fn name_at(text: &[u8], at: u32) -> Name {
    let mut name = [0; 16];
    for k in 0..16 {
        let byte = byte_at(text, at as usize + k);
        if !is_letter(byte) {
            break;
        }
        name[k] = byte;
    }
    name
}

/// Whether these bytes are at an offset.
fn stands(text: &[u8], at: u32, bytes: &[u8]) -> bool {
    for k in 0..bytes.len() {
        if byte_at(text, (at as usize).saturating_add(k)) != bytes[k] {
            return false;
        }
    }
    true
}

/// Whether the name at a place is this one.
pub(crate) fn is_named(text: &[u8], at: u32, name: &[u8]) -> bool {
    stands(text, at, name) && !is_letter(byte_at(text, (at as usize).saturating_add(name.len())))
}

/// The word or sign at an offset, if there is one with this many letters; for 0 with any number of them.
pub(crate) fn word_at(text: &[u8], at: u32, letters: usize) -> Option<Word> {
    for (word, spelled) in &WORDS {
        let long = letters == 0 || spelled.len() == letters;
        if long && stands(text, at, spelled.as_bytes()) {
            return Some(*word);
        }
    }
    None
}
