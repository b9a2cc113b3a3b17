//! What the program `geos` runs: sessions, scripts, tests, calls and traces, on a VM file of the system or on one in memory; and chunks of
//! a VM file that are made, written and read.
#![tactic(auto)]

mod bad_lines;
mod calling;
mod choosing;
mod chunks;
mod comparing;
mod coverage;
mod ending;
mod fault;
mod making;
mod manner;
mod objects;
mod paging;
mod printing;
mod progress;
mod running;
mod step_objects;
mod testing;
mod tracing;

pub use calling::call;
pub use chunks::{get, put};
pub use fault::RunFault;
pub use manner::Manner;
pub use paging::Shown;
pub use running::{run, session};
pub use testing::{OwnTest, Testable, test};
pub use tracing::{Traceable, trace};

/// The most bytes that are read of a script: one more than a script may have.
pub(crate) const MOST_READ: u64 = geos_cli::MOST_BYTES as u64 + 1;
