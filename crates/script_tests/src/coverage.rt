//! How often instructions ran.

use geos_image::MOST_INSTRS;
use geos_machine::Trace;
use std::alloc::{AllocError, Global};
use std::mem;

/// How often each instruction of an image ran, in all scripts that were tested.
#[derive(Drop)]
pub struct Coverage {
    /// The count of each pc; none if nothing is counted.
    counts: Vec<u64>,
}

impl Coverage {
    /// Nothing is counted.
    pub fn unwanted(alloc: Global) -> Coverage {
        Coverage {
            counts: Vec::new(alloc),
        }
    }

    /// No instruction has run. All memory that counting needs is allocated here.
    pub fn new(alloc: Global) -> Result<Coverage, AllocError> {
        Ok(Coverage {
            counts: vec![in alloc; 0; MOST_INSTRS as usize]?,
        })
    }

    /// All that was counted; from then on nothing is.
    pub fn take(&mut self, alloc: Global) -> Coverage {
        let counts = mem::replace(&mut self.counts, Vec::new(alloc));
        Coverage { counts }
    }

    /// Whether runs are counted.
    pub(crate) fn is_wanted(&self) -> bool {
        !self.counts.is_empty()
    }

    /// How often the instruction at a pc ran, at most 18,446,744,073,709,551,615 times.
    pub fn count(&self, pc: u16) -> u64 {
        self.counts.get(usize::from(pc)).copied().unwrap_or(0)
    }

    /// Adds a run.
    pub(crate) fn add(&mut self, trace: &Trace) {
        for pc in 0..MOST_INSTRS {
            if let Some(count) = self.counts.get_mut(usize::from(pc)) {
                *count = count.saturating_add(u64::from(trace.count(pc)));
            }
        }
    }
}
