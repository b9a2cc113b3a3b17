//! Numbers as runs.

use std::fmt;

/// Numbers, of which equal ones after one another are shown once, with their count.
#[derive(Drop)]
pub struct Runs<'a, T>(pub &'a [T]);

impl<T: Copy + PartialEq + fmt::Display> fmt::Display for Runs<'_, T> {
    fn fmt<W: fmt::Write>(&self, f: &mut fmt::Formatter<W>) -> fmt::Result {
        let Some((first, others)) = self.0.split_first() else {
            return f.write_str("none");
        };
        let mut number = *first;
        let mut count: u64 = 1;
        for other in others {
            if *other == number {
                count = count.saturating_add(1);
            } else {
                fmt_run(f, number, count)?;
                f.write_str(", ")?;
                number = *other;
                count = 1;
            }
        }
        fmt_run(f, number, count)
    }
}

/// Shows a number that is repeated so many times.
fn fmt_run<T: Copy + fmt::Display, W: fmt::Write>(
    f: &mut fmt::Formatter<W>,
    number: T,
    count: u64,
) -> fmt::Result {
    if count == 1 {
        write!(f, "{number}")
    } else {
        write!(f, "{number} {count} times")
    }
}
