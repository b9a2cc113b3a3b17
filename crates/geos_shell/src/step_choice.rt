//! Which steps of a run are printed, by what they do.

use crate::given::Given;
use crate::numbers::number_in;
use std::alloc::{AllocError, Global};

/// A line of a routine.
#[derive(Clone, Copy)]
pub struct Line<'a> {
    pub routine: &'a str,
    /// The number of the line, or a label.
    pub line: &'a str,
}

impl<'a> Line<'a> {
    /// The line that a word `ROUTINE:LINE` names.
    pub(crate) fn of(word: &'a str) -> Option<Line<'a>> {
        let (routine, line) = word.rsplit_once(':')?;
        if routine.is_empty() || line.is_empty() {
            return None;
        }
        Some(Line { routine, line })
    }
}

/// A register that a condition is on.
#[derive(Clone, Copy)]
pub enum Register {
    /// w0 to w7, by its number.
    Word(u8),
    /// k0 to k3, by its number.
    Counter(u8),
}

impl Register {
    fn of(word: &str) -> Option<Register> {
        let mut letters = word.chars();
        let kind = letters.next()?;
        match (kind, letters.as_str()) {
            ('w', number) => Some(Register::Word(place_of(number, "01234567")?)),
            ('k', number) => Some(Register::Counter(place_of(number, "0123")?)),
            _ => None,
        }
    }
}

/// The number of a register, a digit of these.
fn place_of(number: &str, digits: &str) -> Option<u8> {
    if number.len() == 1 && digits.contains(number) {
        number.parse().ok()
    } else {
        None
    }
}

/// How a register is compared with a number.
#[derive(Clone, Copy)]
pub enum Test {
    Less,
    AtMost,
    Equal,
    Unequal,
    AtLeast,
    Greater,
}

/// How the tests are written. One that begins with another precedes it.
const TESTS: [(&str, Test); 6] = [
    ("<=", Test::AtMost),
    (">=", Test::AtLeast),
    ("!=", Test::Unequal),
    ("<", Test::Less),
    (">", Test::Greater),
    ("=", Test::Equal),
];

/// A condition on a register.
#[derive(Clone, Copy)]
pub struct Condition {
    pub register: Register,
    pub test: Test,
    pub number: u16,
}

/// The number of a text of decimal digits, or after `0x` of hexadecimal ones, if it has 16 bits.
fn short_in(text: &str) -> Option<u16> {
    let number = match text.strip_prefix("0x") {
        Some(digits) if !digits.starts_with('+') => u32::from_str_radix(digits, 16).ok()?,
        Some(_) => return None,
        None => number_in(text)?,
    };
    u16::try_from(number).ok()
}

impl Condition {
    /// The condition that a word is, as `w3>48`. Blanks may be around the test.
    pub(crate) fn of(word: &str) -> Option<Condition> {
        for (sign, test) in TESTS {
            if let Some((register, number)) = word.split_once(sign) {
                return Some(Condition {
                    register: Register::of(register.trim())?,
                    test,
                    number: short_in(number.trim())?,
                });
            }
        }
        None
    }

    /// Whether it is true of these words w0 to w7 and counters k0 to k3.
    pub fn is_true(&self, words: &[u16], counters: &[u16]) -> bool {
        let found = match self.register {
            Register::Word(n) => words.get(usize::from(n)),
            Register::Counter(n) => counters.get(usize::from(n)),
        };
        let Some(value) = found.copied() else {
            return false;
        };
        match self.test {
            Test::Less => value < self.number,
            Test::AtMost => value <= self.number,
            Test::Equal => value == self.number,
            Test::Unequal => value != self.number,
            Test::AtLeast => value >= self.number,
            Test::Greater => value > self.number,
        }
    }
}

/// A chunk of a block.
#[derive(Clone, Copy)]
pub struct Chunk {
    /// Whether the block is one of memory, and not of the VM file.
    pub in_memory: bool,
    pub block: u16,
    pub chunk: u16,
}

impl Chunk {
    /// The chunk that a word `H:C` or `mem:H:C` names.
    pub(crate) fn of(word: &str) -> Option<Chunk> {
        let (in_memory, handles) = match word.strip_prefix("mem:") {
            Some(handles) => (true, handles),
            None => (false, word),
        };
        let (block, chunk) = handles.split_once(':')?;
        Some(Chunk {
            in_memory,
            block: u16::try_from(number_in(block)?).ok()?,
            chunk: u16::try_from(number_in(chunk)?).ok()?,
        })
    }
}

/// Which steps of those that may be printed are printed.
#[derive(Drop)]
pub struct StepChoice<'a> {
    /// The lines at which they are, as words `ROUTINE:LINE`; with none, at any line.
    pub lines: Vec<Line<'a>>,
    /// What is true after each of them.
    pub conditions: Vec<Condition>,
    /// The chunk that each of them changes.
    pub chunk: Option<Chunk>,
}

/// The lines that words name.
fn lines_in<'a>(alloc: Global, words: &[&'a str]) -> Result<Vec<Line<'a>>, AllocError> {
    let mut lines = Vec::new(alloc);
    for word in words {
        if let Some(line) = Line::of(word) {
            lines.push(line)?;
        }
    }
    Ok(lines)
}

/// The conditions that words are.
fn conditions_in(alloc: Global, words: &[&str]) -> Result<Vec<Condition>, AllocError> {
    let mut conditions = Vec::new(alloc);
    for word in words {
        if let Some(condition) = Condition::of(word) {
            conditions.push(condition)?;
        }
    }
    Ok(conditions)
}

impl<'a> StepChoice<'a> {
    /// The requested choice.
    pub(crate) fn of(alloc: Global, given: &Given<'_, 'a>) -> Result<StepChoice<'a>, AllocError> {
        let chunk = match given.setting("watch") {
            Some(word) => Chunk::of(word),
            None => None,
        };
        let lines = lines_in(alloc, given.words("break"))?;
        let conditions = conditions_in(alloc, given.words("when"))?;
        Ok(StepChoice {
            lines,
            conditions,
            chunk,
        })
    }

    /// Whether all steps are printed.
    pub fn is_any(&self) -> bool {
        self.lines.is_empty() && self.conditions.is_empty() && self.chunk.is_none()
    }
}
