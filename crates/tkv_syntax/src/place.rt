//! Places of a source by line and column.

ghost use Rattle.std.specs.Prelude.{◌≡◌, ◌≤◌, ◌+◌, ◌==◌, length, min, take};
ghost use Rattle.std.specs.List.{count_by};

/// A place of a source: line and column, from 1.
#[derive(Clone, Copy)]
pub struct Place {
    pub line: usize,
    pub column: usize,
}

/// How many line feeds there are.
fn feeds(text: &[u8]) -> usize
    ensures { result ≡ count_by (λ byte. byte == 10) text.now }
{
    text.iter().filter(|byte| **byte == b'\n').count()
}

/// The number of bytes after the last line feed.
fn width(text: &[u8]) -> usize {
    let mut width: usize = 0;
    for byte in text {
        width = if *byte == b'\n' {
            0
        } else {
            width.saturating_add(1)
        };
    }
    width
}

/// The line and the column of an offset; of one past the end, those of the end.
pub fn place_of(text: &[u8], at: u32) -> Place
    ensures line { result.line ≡ count_by (λ byte. byte == 10) (take (min at (length text.now)) text.now) + 1 }
{
    let end = (at as usize).min(text.len());
    let (front, _) = text.split_at(end);
    Place {
        line: feeds(front) + 1,
        column: width(front).saturating_add(1),
    }
}
