//! Names of a source.

ghost use Rattle.std.specs.Prelude.{◌≡◌, ◌<◌, ◌≤◌, length, bytes_eq, if◌then◌else◌, slice_index};
ghost use Rattle.tkv_names.specs.Named.{is_letter, letters, name_at};

/// The byte at an offset if a name may have it, otherwise 0.
fn letter(text: &[u8], at: usize) -> u8
    ensures value { result ≡ (if is_letter (slice_index text.now at) then slice_index text.now at else 0) }
    ensures within { 0 < result → at < length text.now }
{
    match text.get(at) {
        Some(byte) => {
            if byte.is_ascii_alphanumeric() || *byte == b'_' {
                *byte
            } else {
                0
            }
        }
        None => 0,
    }
}

/// Whether so many letters at most are the same from two offsets on.
fn same_letters(text: &[u8], one: usize, other: usize, most: u8) -> bool
    ensures { result ≡ bytes_eq (letters most text.now one) (letters most text.now other) }
{
    if most == 0 {
        return true;
    }
    let (left, right) = (letter(text, one), letter(text, other));
    if left != right {
        return false;
    }
    if left == 0 {
        return true;
    }
    same_letters(text, one + 1, other + 1, most - 1)
}

/// Whether the names at two offsets are the same.
pub(crate) fn same_name(text: &[u8], one: u32, other: u32) -> bool
    ensures { result ≡ bytes_eq (name_at text.now one) (name_at text.now other) }
{
    same_letters(text, one as usize, other as usize, 16)
}
