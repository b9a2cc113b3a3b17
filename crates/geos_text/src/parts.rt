//! Texts, by their parts.

ghost use Rattle.std.specs.Prelude.{◌≡◌, ◌++◌, OnOk, decimal};
ghost use Rattle.geos_text.specs.Parts.{part_text, parts_text};

use std::alloc::AllocError;

/// A part of a text.
#[derive(Clone, Copy)]
pub enum Part<'a> {
    Text(&'a str),
    /// A name, or what was written before.
    Bytes(&'a [u8]),
    /// A text, and after it a number in decimal digits.
    Numbered(&'a str, u64),
}

/// Appends a sign and a number in decimal digits. An error says that an allocation was refused.
pub fn put_numbered(out: &mut Vec<u8>, sign: &str, number: u64) -> Result<(), AllocError>
    ensures { OnOk result (out.new.items ≡ out.old.items ++ sign.now ++ decimal number) }
{
    out.extend_from_slice(sign.as_bytes())?;
    let mut digits = itoa::Buffer::new();
    out.extend_from_slice(digits.format(number).as_bytes())
}

fn put_part(out: &mut Vec<u8>, part: &Part) -> Result<(), AllocError>
    ensures { OnOk result (out.new.items ≡ out.old.items ++ part_text part.now) }
{
    match *part {
        Part::Text(text) => out.extend_from_slice(text.as_bytes()),
        Part::Bytes(bytes) => out.extend_from_slice(bytes),
        Part::Numbered(text, n) => put_numbered(out, text, n),
    }
}

/// Appends the parts one after another. An error says that an allocation was refused.
pub fn put_parts(out: &mut Vec<u8>, parts: &[Part]) -> Result<(), AllocError>
    ensures { OnOk result (out.new.items ≡ out.old.items ++ parts_text parts.now) }
{
    for part in parts {
        put_part(out, part)?;
    }
    Ok(())
}
