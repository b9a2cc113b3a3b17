//! Faults on standard error.

use crate::request::Reports;
use crate::streams::tell;
use std::alloc::Global;
use std::fmt::Display;

/// A request was not carried out, and standard error says why; or lines of test scripts failed, as standard output says.
#[derive(Clone, Copy)]
pub struct Reported;

/// A fault of which there may be more to say than its line.
pub trait Diagnosed {
    /// What more there is to say, as diagnostics: lines `FILE:LINE: error: ..` and `FILE: note: ..`. Empty if there is no more, or no memory.
    fn diagnostics(&self, alloc: Global) -> Vec<u8>;
}

/// Reports a fault in one line on standard error. If standard error fails, only the status of the program tells.
pub fn report<F: Display>(rt: &HostRuntime, fault: &F) -> Reported {
    let _ = eprintln!(rt; "{fault}");
    Reported
}

/// What was done. A fault is reported instead, with its diagnostics if they are required.
pub fn done_or_reported<T: Drop, F: Diagnosed + Display + Drop>(
    rt: &HostRuntime,
    reports: Reports,
    done: Result<T, F>,
) -> Result<T, Reported> {
    match done {
        Ok(done) => Ok(done),
        Err(fault) => {
            let reported = report(rt, &fault);
            if reports.diagnostics {
                tell(rt, reports, &fault.diagnostics(rt.alloc()));
            }
            Err(reported)
        }
    }
}
