//! Bars, and texts in columns.

use sentence_text::Text;

/// A bar of so many columns, of which the first ones are used, from a blank to the end of its line.
pub(crate) fn put_bar(out: &mut Text, used: usize, columns: usize) {
    out.put(" ");
    for k in 0..columns {
        out.put(if k < used { "#" } else { "." });
    }
    out.put("\n")
}

/// The columns that a part of a whole takes, where the whole takes so many; one at least.
pub(crate) fn columns_of(part: u32, whole: u32, columns: usize) -> usize {
    let columns = columns.min(usize::from(u16::MAX));
    let share = part as usize * columns / whole.max(1) as usize;
    share.max(1).min(columns)
}

/// A text that ends where so many columns do, or past them where it is longer.
pub(crate) fn put_right(out: &mut Text, columns: usize, text: &str) {
    for _ in text.len()..columns {
        out.put(" ");
    }
    out.put(text)
}

/// A number that ends where so many columns do.
pub(crate) fn put_number_right(out: &mut Text, columns: usize, number: u16) {
    let mut digits = itoa::Buffer::new();
    put_right(out, columns, digits.format(number))
}
