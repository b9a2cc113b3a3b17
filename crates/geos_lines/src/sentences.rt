//! All sentences on faulty lines.

use crate::words::Word;
use geos_source::label_of;
use sentence_text::Text;

/// The most bytes of a word that are shown.
const MOST_SHOWN: usize = 40;

/// The digits of a byte that is no printable character.
const DIGITS: &[u8; 16] = b"0123456789abcdef";

/// What a word is not.
#[derive(Clone, Copy)]
pub(crate) enum Wrong {
    NoWord,
    NoCounter,
    NoSlot,
    NoPointer,
    NoNumber,
    NoName,
    NoBudget,
    /// The `?` that `geos budget` takes for a budget.
    OpenBudget,
    NoItem,
    NoLabel,
    NoInstruction,
}

impl Wrong {
    /// The text after the word.
    fn text(self) -> &'static str {
        match self {
            Wrong::NoWord => " is no word: words are w0 to w7",
            Wrong::NoCounter => " is no counter: counters are k0 to k3",
            Wrong::NoSlot => " is no slot: slots are s0 to s3",
            Wrong::NoPointer => " is no pointer: pointers are p0 to p3",
            Wrong::NoNumber => " is no number: a number has only decimal digits",
            Wrong::NoName =>
                " is no name: a name has letters, digits and underscores, the first a letter",
            Wrong::NoBudget => " is not the word budget",
            Wrong::OpenBudget => " is no number: geos budget puts one there",
            Wrong::NoItem => " is no item",
            Wrong::NoLabel =>
                " is no label: a label has letters, digits and underscores, the first a letter, and a colon",
            Wrong::NoInstruction => " is no instruction, and none of routine, in and out",
        }
    }

    /// The same without the reason, if another one follows.
    fn short_text(self) -> &'static str {
        match self {
            Wrong::NoWord => " is no word",
            Wrong::NoCounter => " is no counter",
            Wrong::NoSlot => " is no slot",
            Wrong::NoPointer => " is no pointer",
            Wrong::NoNumber => " is no number",
            Wrong::NoName => " is no name",
            Wrong::NoLabel => " is no label",
            Wrong::NoBudget | Wrong::OpenBudget => self.text(),
            Wrong::NoItem => " is no item",
            Wrong::NoInstruction => " is no instruction",
        }
    }

    /// The most bytes that a word of the form has, if it is a name, with its colon if it is a label.
    fn most_bytes(self) -> usize {
        match self {
            Wrong::NoName => 16,
            Wrong::NoLabel => 17,
            _ => usize::MAX,
        }
    }

    /// The letter of the registers of the form.
    fn letter(self) -> u8 {
        match self {
            Wrong::NoWord => b'w',
            Wrong::NoCounter => b'k',
            Wrong::NoSlot => b's',
            Wrong::NoPointer => b'p',
            _ => b' ',
        }
    }
}

/// Appends a byte of a word; if it is no printable character, by its digits.
fn put_byte(out: &mut Text, byte: u8) {
    if byte.is_ascii_graphic() || byte == b' ' {
        return out.put_bytes(&[byte]);
    }
    let digits = [
        b'\\',
        b'x',
        DIGITS[usize::from(byte >> 4)],
        DIGITS[usize::from(byte & 15)],
    ];
    out.put_bytes(&digits)
}

/// Appends a word in quotation marks, or its first bytes.
pub(crate) fn put_quoted(out: &mut Text, word: &[u8]) {
    out.put("\"");
    for byte in &word[..word.len().min(MOST_SHOWN)] {
        put_byte(out, *byte);
    }
    if word.len() > MOST_SHOWN {
        out.put("..");
    }
    out.put("\"")
}

/// Appends a word in quotation marks, and its column, in bytes from 1.
pub fn put_word(out: &mut Text, word: Word) {
    put_quoted(out, word.bytes);
    let column = word.start.saturating_add(1);
    out.put_number(" at column ", column as u64)
}

/// What helps with the name of a number.
pub(crate) const CONSTANT: &str = ": numbers have no names; for #define run cpp -P first";

/// What helps if a word begins as a comment does in other languages.
pub(crate) const COMMENT: &str =
    ": a comment begins with ;, and for lines as #define run cpp -P first";

/// Whether a word begins as a comment does in other languages.
pub(crate) fn begins_comment(word: &[u8]) -> bool {
    word.starts_with(b"#") || word.starts_with(b"/") || word.starts_with(b"--")
}

/// How files begin that are no texts in ASCII, and what they are.
const OTHER_FILES: [(&[u8], &str); 4] = [
    (
        b"GRT1",
        ": this is an image, and no text: geos list prints it as a text",
    ),
    (b"\x7fELF", ": this is a program, and no text"),
    (b"\xff\xfe", ": this text is in UTF-16: save it as UTF-8"),
    (b"\xfe\xff", ": this text is in UTF-16: save it as UTF-8"),
];

/// What the file is that begins with a word, if it is no text in ASCII.
pub(crate) fn other_file(word: &[u8]) -> Option<&'static str> {
    for (beginning, said) in &OTHER_FILES {
        if word.starts_with(*beginning) {
            return Some(*said);
        }
    }
    None
}

/// What a word has that none may have, or that it is longer than this.
pub(crate) fn hint(word: &[u8], most: usize) -> Option<&'static str> {
    let file = other_file(word);
    if file.is_some() {
        file
    } else if word.starts_with(b"\xef\xbb\xbf") {
        Some(": take out the byte order mark at the beginning of the text")
    } else if word.contains(&b'\r') {
        Some(": a line ends with LF or CR LF, and not with only CR")
    } else if word.contains(&b',') {
        Some(": separate words by spaces, without commas")
    } else if begins_comment(word) {
        Some(COMMENT)
    } else if word.len() > most {
        Some(": a name has at most 16 letters, digits and underscores")
    } else {
        None
    }
}

/// What follows the reason for a word that is a register of another kind, or in capitals, or a number in place of a word.
fn also(word: &[u8], wrong: Wrong) -> Option<&'static str> {
    let letter = *word.first()?;
    if letter.is_ascii_digit() && wrong.letter() == b'w' {
        return Some(", and LDI puts a number into one");
    }
    if word.len() != 2 || !word.get(1)?.is_ascii_digit() || letter == wrong.letter() {
        return None;
    }
    match letter {
        b'w' if wrong.letter() == b'k' => Some(", and this is a word, which SETKW sets one to"),
        b'w' => Some(", and this is a word"),
        b'k' => Some(", and this is a counter, which SETK and SETKW set"),
        b's' => Some(", and this is a slot"),
        b'p' => Some(", and this is a pointer, which LDB and LDW read through, and MOVP copies"),
        b'W' | b'K' | b'S' | b'P' => Some(", with a small letter"),
        _ => None,
    }
}

/// Whether a word is a digit or more after one sign, as `#5`.
fn is_marked_number(word: &[u8]) -> bool {
    let Some((sign, digits)) = word.split_first() else {
        return false;
    };
    match digits.first() {
        Some(digit) => digit.is_ascii_digit() && matches!(sign, b'#' | b'$' | b'='),
        None => false,
    }
}

/// Whether a word is like the names that `#define` gives to numbers: three capitals, digits and underscores or more, the first a capital.
fn is_constant(word: &[u8]) -> bool {
    let may_be = word.iter().all(|byte| byte.is_ascii_uppercase()
        || byte.is_ascii_digit()
        || *byte == b'_');
    match word.first() {
        Some(byte) => may_be && word.len() > 2 && byte.is_ascii_uppercase(),
        None => false,
    }
}

/// What helps with a word in place of a number.
fn number_hint(word: &[u8]) -> Option<&'static str> {
    if is_marked_number(word) {
        return Some(": write only its digits");
    }
    if is_constant(word) {
        return Some(CONSTANT);
    }
    if word.starts_with(b"0x") || word.starts_with(b"0X") {
        Some(": write it in decimal digits, as 31 for 0x1f")
    } else if word.starts_with(b"-") {
        Some(": add 65536 to a negative number, as 65535 for -1")
    } else if word.starts_with(b"'") {
        Some(": write the code of a character, as 97 for 'a'")
    } else if word
        .iter()
        .all(|byte| byte.is_ascii_digit() || *byte == b',')
    {
        Some(": a number has only decimal digits")
    } else {
        None
    }
}

/// What helps with a word in place of what its form is to be.
fn help(word: &[u8], wrong: Wrong) -> Option<&'static str> {
    let own = match wrong {
        Wrong::NoName if label_of(word).is_some() => Some(": write it here without the colon"),
        Wrong::NoNumber => number_hint(word),
        _ => None,
    };
    own.or(hint(word, wrong.most_bytes()))
}

/// Appends what is wrong with a word of a line.
pub(crate) fn put_wrong(out: &mut Text, word: Word, wrong: Wrong) {
    put_word(out, word);
    match help(word.bytes, wrong) {
        Some(help) => {
            out.put(wrong.short_text());
            out.put(help)
        }
        None => {
            out.put(wrong.text());
            out.put(also(word.bytes, wrong).unwrap_or(""))
        }
    }
}

/// Appends that a number is past its bound.
pub(crate) fn put_above(out: &mut Text, word: Word, bound: u32) {
    put_word(out, word);
    out.put_number(" is above ", u64::from(bound));
    out.put(": use a lower number")
}

/// Appends that a word is one too many.
pub(crate) fn put_too_much(out: &mut Text, word: Word) {
    put_word(out, word);
    out.put(" is one too many");
    out.put(hint(word.bytes, usize::MAX).unwrap_or(": take it out"))
}
