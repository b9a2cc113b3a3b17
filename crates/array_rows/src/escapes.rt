//! Texts and digits that say which bytes are meant.

/// What the bytes before a byte say of it.
#[derive(Clone, Copy)]
enum State {
    /// Nothing: it is a character, or begins an escape.
    Character,
    /// A backslash precedes it.
    Escape,
    /// It is the first of two digits.
    High,
    /// It is the second one, after the digit of this number.
    Low(u8),
    /// A byte before it is wrong.
    Wrong,
}

/// Bytes as a field writes them, of which some have been read.
#[derive(Clone, Copy)]
pub(crate) struct Escaped {
    state: State,
    /// What follows two digits.
    next: State,
}

/// The number of a hexadecimal digit.
fn digit_of(byte: u8) -> Option<u8> {
    match byte {
        b'0'..=b'9' => Some(byte - b'0'),
        b'a'..=b'f' => Some(byte - b'a' + 10),
        b'A'..=b'F' => Some(byte - b'A' + 10),
        _ => None,
    }
}

impl Escaped {
    /// A text: `\\` is a backslash, and `\x` and two digits any byte.
    pub(crate) fn text() -> Escaped {
        Escaped {
            state: State::Character,
            next: State::Character,
        }
    }

    /// Hexadecimal digits, two for each byte.
    pub(crate) fn digits() -> Escaped {
        Escaped {
            state: State::High,
            next: State::High,
        }
    }

    /// Whether what was read is right, and may end here.
    pub(crate) fn is_whole(&self) -> bool {
        match (self.state, self.next) {
            (State::Character, _) | (State::High, State::High) => true,
            _ => false,
        }
    }

    /// Reads a byte, and returns the byte that it ends, if it ends one.
    pub(crate) fn take(&mut self, byte: u8) -> Option<u8> {
        let (state, found) = match (self.state, digit_of(byte)) {
            (State::High, Some(digit)) => (State::Low(digit), None),
            (State::Low(high), Some(low)) => (self.next, Some((high % 16) * 16 + low % 16)),
            (state, _) => after(state, byte),
        };
        self.state = state;
        found
    }
}

/// The state after a byte that is not read as a digit, and the byte that it ends.
fn after(state: State, byte: u8) -> (State, Option<u8>) {
    match state {
        State::Character if byte == b'\\' => (State::Escape, None),
        State::Character if b' ' <= byte && byte <= b'~' => (State::Character, Some(byte)),
        State::Escape if byte == b'\\' => (State::Character, Some(byte)),
        State::Escape if byte == b'x' => (State::High, None),
        _ => (State::Wrong, None),
    }
}
