//! Warnings about routines: what is accepted, and is probably not what its author means.
//!
//! The analysis is over single words and each way that control may take. It takes no bound of a word into account, so it may warn of a way
//! that no run takes.
#![tactic(auto)]

mod advice;
mod calls;
mod finding;
mod items;
mod liveness;
mod reaching;
mod scripts;
mod telling;
mod words;

pub use advice::Advice;
pub use calls::advice_on_call;
pub use finding::{Lint, lints};
pub use items::{Doubled, doubled_items};
pub use scripts::{DoubtfulCall, DoubtfulCalls, doubtful_calls};
pub use telling::{advice_on, advice_on_doubled, warnings};
