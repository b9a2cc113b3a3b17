//! The image of a session, in hexadecimal digits.

ghost use Rattle.std.specs.Prelude.{◌≡◌, ◌<◌, ◌≤◌, ◌∷◌, [], ◌%◌, length, true, None, IfSome, IfNone, IfOk, IfErr, filter_map};
ghost use Rattle.std.specs.Option.{ForSome};
ghost use Rattle.std.specs.Str.Lines.{lines};
ghost use Rattle.geos_input.specs.Hex.{digit_of, bytes_of, digits_in, is_hex_line, is_end};
ghost use Rattle.geos_input.specs.Hex.{hex_fault, image_bytes, script_lines, Takes, IsBadHex};

use crate::fault::ScriptFault;
use geos_text::{first_line, first_word, is_blank};
use std::alloc::{AllocError, Global};

fn digit(byte: u8) -> Option<u8>
    ensures value { result ≡ digit_of byte }
    ensures bound { IfSome result (λ d. d < 16) }
{
    match byte {
        b'0'..=b'9' => Some(byte - b'0'),
        b'a'..=b'f' => Some(byte - b'a' + 10),
        b'A'..=b'F' => Some(byte - b'A' + 10),
        _ => None,
    }
}

/// The bytes of the digits so far, and a digit whose pair has not come.
#[derive(Drop)]
struct Digits {
    bytes: Vec<u8>,
    high: Option<u8>,
    ghost in_range: { ForSome high (λ d. d < 16) },
}

impl Digits {
    fn push(&mut self, digit: u8) -> Result<(), AllocError>
        requires { digit < 16 }
        ensures { IfOk result (λ _. Takes self.old.bytes.items self.old.high self.new.bytes.items self.new.high (digit ∷ [])) }
    {
        match self.high {
            None => self.high = Some(digit),
            Some(high) => {
                self.bytes.push(16 * high + digit)?;
                self.high = None;
            }
        }
        Ok(())
    }

    /// Takes the digits of a line; `false` at another character.
    fn take_line(&mut self, line: &[u8]) -> Result<bool, AllocError>
        ensures hex { IfOk result (λ hex. hex ≡ is_hex_line line.now) }
        ensures taken { IfOk result (λ hex. hex ≡ true →
            Takes self.old.bytes.items self.old.high self.new.bytes.items self.new.high (filter_map digit_of line.now)) }
    {
        for byte in line {
            match digit(*byte) {
                Some(digit) => self.push(digit)?,
                None => {
                    if !is_blank(*byte) {
                        return Ok(false);
                    }
                }
            }
        }
        Ok(true)
    }

    /// The bytes, unless the digits are odd in number.
    fn finish(self) -> Option<Vec<u8>>
        ensures whole { IfSome result (λ bytes. bytes.items ≡ bytes_of (digits_in self.bytes.items self.high)) }
        ensures even { IfSome result (λ _. length (digits_in self.bytes.items self.high) % 2 ≡ 0) }
        ensures odd { IfNone result (length (digits_in self.bytes.items self.high) % 2 ≡ 1) }
    {
        match self.high {
            None => Some(self.bytes),
            Some(_) => None,
        }
    }
}

/// Whether the line is the word `end`, with blanks round it.
fn is_end(line: &[u8]) -> bool
    ensures { result ≡ is_end line.now }
{
    match first_word(line) {
        Some((word, rest)) => word == b"end".as_slice() && first_word(rest).is_none(),
        None => false,
    }
}

/// The image's bytes, and the script after the line `end`.
pub fn image_and_script(alloc: Global, input: &[u8]) -> Result<(Vec<u8>, &[u8]), ScriptFault>
    ensures good { IfOk result (λ _. hex_fault (lines input.now) ≡ None) }
    ensures image { IfOk result (λ parts. parts.0.items ≡ image_bytes (lines input.now)) }
    ensures script { IfOk result (λ parts. lines parts.1.now ≡ script_lines (lines input.now)) }
    ensures short { IfOk result (λ parts. length parts.1.now ≤ length input.now) }
    ensures bad { IfErr result (IsBadHex (lines input.now)) }
{
    let mut digits = Digits {
        bytes: Vec::new(alloc),
        high: None,
    };
    let mut rest = input;
    let mut line_number: usize = 0;
    while !rest.is_empty() {
        let (line, behind) = first_line(rest);
        rest = behind;
        line_number += 1;
        if is_end(line) {
            let image = digits.finish().ok_or(ScriptFault::BadHex(line_number))?;
            return Ok((image, rest));
        }
        if !digits.take_line(line)? {
            return Err(ScriptFault::BadHex(line_number));
        }
    }
    Err(ScriptFault::BadHex(0))
}
