//! The line on a terminal that says how far a long run is.

use geos_cli::Follow;
use std::io::IsTerminal;
use std::time::Instant;

/// How many jumps pass between two looks at the clock. A jump takes some nanoseconds.
const JUMPS: u32 = 1 << 22;

/// How many milliseconds a run takes before its line is shown.
const SHORT: u128 = 2_000;

/// How many milliseconds pass between two lines.
const PAUSE: u128 = 200;

/// Whether runs have a line: somebody looks at the standard error.
pub(crate) fn is_shown(rt: &HostRuntime) -> bool {
    rt.stderr().is_terminal()
}

/// Shows on standard error how many steps of its budget a run has done, if the run takes more than two seconds. The line goes when the run
/// ends, before anything that the run outputs is printed.
#[derive(Drop)]
pub(crate) struct ProgressLine<'r> {
    rt: &'r HostRuntime,
    /// Whether lines are shown: somebody looks at the standard error.
    is_shown: bool,
    /// When the run began, if a line may be shown and the system has a clock.
    begun: Option<Instant>,
    budget: usize,
    jumps: u32,
    /// After how many milliseconds the line is shown next.
    next: u128,
}

impl<'r> ProgressLine<'r> {
    /// The line of runs that have not begun.
    pub(crate) fn new(rt: &'r HostRuntime) -> ProgressLine<'r> {
        ProgressLine {
            rt,
            is_shown: is_shown(rt),
            begun: None,
            budget: 0,
            jumps: 0,
            next: SHORT,
        }
    }

    /// Shows the line, if enough time has passed since it was last shown.
    #[inline(never)]
    fn show(&mut self, left: usize) {
        let Some(begun) = &self.begun else {
            return;
        };
        let passed = match begun.elapsed(self.rt) {
            Ok(passed) => passed.as_millis(),
            Err(_) => return,
        };
        if passed >= self.next {
            self.next = passed.saturating_add(PAUSE);
            let done = self.budget.saturating_sub(left);
            let _ = eprint!(self.rt; "\r\x1b[K{done} of {} steps", self.budget);
        }
    }
}

impl Follow for ProgressLine<'_> {
    fn begins(&mut self, budget: usize) {
        self.begun = if self.is_shown {
            Instant::now(self.rt).ok()
        } else {
            None
        };
        self.budget = budget;
        self.jumps = 0;
        self.next = SHORT;
    }

    fn jumps(&mut self, left: usize) {
        self.jumps = self.jumps.wrapping_add(1);
        if self.jumps % JUMPS == 0 {
            self.show(left);
        }
    }

    fn ends(&mut self) {
        if self.next != SHORT {
            let _ = eprint!(self.rt; "\r\x1b[K");
        }
    }
}
