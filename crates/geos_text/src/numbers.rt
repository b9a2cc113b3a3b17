//! Numbers in decimal digits.

ghost use Rattle.std.specs.Prelude.{◌≡◌, ◌≤◌, IfOk};
ghost use Rattle.geos_text.specs.Numbers.{number_up_to, number_of};

/// Why a word is no number of a range.
#[derive(Clone, Copy, Debug, PartialEq, Eq)]
pub enum NumberError {
    /// A character is not a decimal digit, or there is no digit.
    Malformed,
    /// It is a number, but a greater one.
    TooLarge,
}

/// A number in decimal digits, at most the greatest one; leading zeros are allowed. `Malformed`
/// where the word is empty or has another character, otherwise `TooLarge` if the number is above
/// the greatest one.
pub fn number_up_to(greatest: u32, word: &[u8]) -> Result<u32, NumberError>
    ensures value { result ≡ number_up_to greatest word.now }
    ensures within { IfOk result (λ number. number ≤ greatest) }
{
    if word.is_empty() {
        return Err(NumberError::Malformed);
    }
    let past = u64::from(greatest) + 1;
    let mut number: u64 = 0;
    for byte in word {
        if !byte.is_ascii_digit() {
            return Err(NumberError::Malformed);
        }
        number = (number * 10 + u64::from(*byte - b'0')).min(past);
    }
    if number == past {
        return Err(NumberError::TooLarge);
    }
    Ok(number as u32)
}

/// A number in decimal digits, at most 65,535; leading zeros are allowed.
pub fn number(word: &[u8]) -> Option<u16>
    ensures { result ≡ number_of word.now }
{
    match number_up_to(65_535, word) {
        Ok(number) => Some(number as u16),
        Err(_) => None,
    }
}
