//! What an element of an array has, as the word of `--fields` says it.

/// The most bytes that an element of an array can have: a chunk has 65,535, of which the array begins with eight.
const MOST_BYTES: u16 = 65_527;

/// A part of an element.
#[derive(Clone, Copy)]
pub enum Field {
    /// A number of one byte.
    Byte,
    /// A number of two bytes, the low one first.
    Word,
    /// A text of at most so many bytes, with bytes 0 after it.
    Text(u16),
}

impl Field {
    /// How many bytes of an element it is.
    pub fn size(&self) -> usize {
        match self {
            Field::Byte => 1,
            Field::Word => 2,
            Field::Text(n) => usize::from(*n),
        }
    }
}

/// The field that a word names: `1` or `2`, or as `8t` a text.
pub fn field_of(word: &str) -> Option<Field> {
    match word {
        "1" => Some(Field::Byte),
        "2" => Some(Field::Word),
        _ => {
            let digits = word.strip_suffix("t")?;
            match digits.parse::<u16>() {
                Ok(n) if !digits.starts_with('+') && 0 < n && n <= MOST_BYTES => {
                    Some(Field::Text(n))
                }
                _ => None,
            }
        }
    }
}

/// Whether a word names fields, with a comma between them.
pub(crate) fn are_fields(word: &str) -> bool {
    for field in word.split(',') {
        if field_of(field).is_none() {
            return false;
        }
    }
    true
}
