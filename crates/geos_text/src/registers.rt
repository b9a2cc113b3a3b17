//! Registers.

ghost use Rattle.std.specs.Prelude.{◌≡◌, ◌<◌, ◌≤◌, IfSome};
ghost use Rattle.geos_text.specs.Registers.{register_of};

/// The number of a register, of so many of its kind: the kind's letter, and one digit. `None`
/// where the word is anything else.
pub fn register(letter: u8, count: u8, word: &[u8]) -> Option<u8>
    requires { count ≤ 10 }
    ensures value { result ≡ register_of letter count word.now }
    ensures within { IfSome result (λ number. number < count) }
{
    if word.len() == 2 && word[0] == letter && b'0' <= word[1] && word[1] < b'0' + count {
        Some(word[1] - b'0')
    } else {
        None
    }
}
