//! Bytes in hexadecimal, as `xxd` prints them.

ghost use Rattle.std.specs.Prelude.{◌<◌, length};

use sentence_text::Text;

/// The digits of hexadecimal numbers.
const DIGITS: [u8; 16] = *b"0123456789abcdef";

/// The bytes of a line.
const BYTES_IN_LINE: usize = 16;

/// The bytes of a short line.
const BYTES_IN_SHORT_LINE: usize = 8;

/// The two digits of a byte.
fn digits_of(byte: u8) -> [u8; 2] {
    [
        DIGITS[usize::from(byte / 16)],
        DIGITS[usize::from(byte % 16)],
    ]
}

/// The offset of a line's first byte, in eight digits.
fn put_offset(out: &mut Text, at: usize)
    requires { at < 65536 }
{
    let [a, b] = digits_of((at / 256) as u8);
    let [c, d] = digits_of((at % 256) as u8);
    out.put_bytes(&[b'0', b'0', b'0', b'0', a, b, c, d, b':', b' '])
}

/// The digits of the byte with a number, or blanks where there is none.
fn cell_of(bytes: &[u8], k: usize) -> [u8; 2] {
    match bytes.get(k) {
        Some(byte) => digits_of(*byte),
        None => *b"  ",
    }
}

/// The columns of a line of so many bytes, and a blank.
fn put_columns(out: &mut Text, bytes: &[u8], most: usize) {
    for k in 0..most {
        out.put_bytes(&cell_of(bytes, k));
        if k % 2 == 1 {
            out.put(" ");
        }
    }
    out.put(" ")
}

/// A byte as a line shows it: itself where it can be printed.
fn shown(byte: u8) -> u8 {
    if byte >= 32 && byte <= 126 {
        byte
    } else {
        b'.'
    }
}

/// A line of at most so many bytes: the offset of the first, their digits, and the bytes as they are shown.
fn put_hex_line(out: &mut Text, at: usize, bytes: &[u8], most: usize)
    requires { at < 65536 }
{
    put_offset(out, at);
    put_columns(out, bytes, most);
    for byte in bytes {
        out.put_bytes(&[shown(*byte)]);
    }
    out.put("\n");
}

/// Bytes, sixteen in a line, or eight in a short one.
pub(crate) fn put_hex_lines(out: &mut Text, bytes: &[u8], short: bool)
    requires { length bytes.now < 65536 }
{
    for k in 0..bytes.len().div_ceil(BYTES_IN_LINE) {
        let at = k * BYTES_IN_LINE;
        let line = &bytes[at..bytes.len().min(at + BYTES_IN_LINE)];
        if !short {
            put_hex_line(out, at, line, BYTES_IN_LINE);
            continue;
        }
        let half = line.len().min(BYTES_IN_SHORT_LINE);
        put_hex_line(out, at, &line[..half], BYTES_IN_SHORT_LINE);
        if half < line.len() {
            put_hex_line(out, at + half, &line[half..], BYTES_IN_SHORT_LINE);
        }
    }
}
