//! What trials share. A trial reads lines of calls, each a word and numbers, and carries them out one after the other. It prints each
//! line again, and what the call answers after it; lines that are blank or only a comment are printed as they are.
//!
//! `times N WORD ..` makes a call so often, and `WORD_each FROM TO ..` makes the call `WORD HANDLE ..` for each handle from one to
//! another. Both tell how the answers run.
#![tactic(auto)]

mod answer;
mod line;
mod runs;
mod series;
mod texts;
mod trial;

pub use answer::Answer;
pub use line::{Line, MOST_NUMBERS, Reading, before_comment};
pub use runs::Runs;
pub use series::Series;
pub use texts::{shown, shown_done, shown_result, told};
pub use trial::{Trial, carry_out};
