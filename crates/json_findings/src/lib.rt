//! What is wrong with texts, sources and images, as JSON objects, an object a line.
//!
//! docs/JSON.md has the members.
#![tactic(auto)]

mod finding;
mod images;
mod parts;
mod texts;

pub use finding::{At, Finding, Severity, put_finding, put_more};
pub use images::{Source, put_judged};
pub use texts::{MarkedText, put_why_no_image};
