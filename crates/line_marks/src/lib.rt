//! Lines of assembly texts: they are put into columns, and the line marks of preprocessors say from which line of which file the next one
//! comes.
//!
//! `cpp` writes `# 12 "f.asm"`, and `m4 -s` writes `#line 12 "f.asm"` or `#line 12`. The line after such a mark is line 12 of the file.
#![tactic(auto)]

mod columns;
mod mark;
mod marks;
mod origins;
mod output;
mod told;

pub use columns::formatted;
pub use mark::is_mark;
pub use marks::{LineMarks, Place};
pub use origins::{Origin, origins_of};
