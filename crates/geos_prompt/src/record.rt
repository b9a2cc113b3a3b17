//! What a session is on, and what it has carried out. It has no kernel, so that a proof about its readers does not go over the parts of one.

use crate::past::Past;
use crate::reply::{Reply, Stop, joined, wrong};
use crate::running::{carry_out_from, kernel_on};
use geos_cli::ScriptFault;
use geos_kernel::Kernel;
use geos_texts::Runnable;
use geos_verify::Checked;
use std::alloc::Global;
use vm_file::MemoryDevice;

/// What a session is on, and what it has carried out.
#[derive(Drop)]
pub(crate) struct Record<'s, 'a> {
    pub(crate) routines: &'s Runnable<'a>,
    pub(crate) checked: &'s Checked,
    /// How many bytes blocks in memory have.
    pub(crate) region: u32,
    /// The bytes of the VM file when the session began.
    pub(crate) start: Vec<u8>,
    pub(crate) past: Past,
}

/// The sentence on the one bad line of a report.
fn sentence_of(told: &[u8]) -> &str {
    let text = std::str::from_utf8(told).unwrap_or("");
    match text.split_once(": ") {
        Some((_, sentence)) => sentence.trim_end(),
        None => "a name in this line has no word, or one that the routine does not admit",
    }
}

impl Record<'_, '_> {
    /// Another kernel on a copy of the VM file as it was when the session began, after all lines of the past. `None` if there is no memory.
    pub(crate) fn again(&self, alloc: Global) -> Option<Kernel<MemoryDevice>> {
        let mut kernel = kernel_on(alloc, &self.start, self.region)?;
        carry_out_from(alloc, self.checked, &self.past, 0, &mut kernel)?;
        Some(kernel)
    }

    /// What is wrong with a bad line. `None` if there is no memory.
    pub(crate) fn why_bad(&self, alloc: Global, line: &[u8]) -> Option<Reply> {
        let script = joined(alloc, &self.past.text, line)?;
        match self.routines.tell_bad_lines(alloc, &script) {
            Ok(told) => wrong(alloc, sentence_of(&told)),
            Err(ScriptFault::TooLong) => Some(Reply::Stop(Stop::TooLong)),
            Err(_) => None,
        }
    }
}
