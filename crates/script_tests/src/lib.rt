//! Scripts whose lines say what they are to print.
//!
//! | Module | Has |
//! |---|---|
//! | comparing | `run_comparing`: runs a script, and prints what it outputs |
//! | coverage | `Coverage`: how often instructions ran |
//! | lines | the lines of a test script: a command, and after `=>` what it is to print |
//! | printed | whether a line printed what it is to print |
//! | report | what is printed of a test script |
//! | running | `test_script`: runs a test script, and prints nothing |
//! | script | `TestScript`, and `Part` of a source |
//! | suite | attributes of JUnit XML |
#![tactic(auto)]

mod comparing;
mod coverage;
mod lines;
mod printed;
mod report;
mod running;
mod script;
mod suite;

pub use comparing::{Compared, run_comparing};
pub use coverage::Coverage;
pub use lines::plain_script;
pub use running::{Tested, test_script};
pub use script::{Part, TestScript};
