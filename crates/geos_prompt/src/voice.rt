//! What a session prints and reports.

use geos_shell::{Reports, StreamFault, print_lines, tell};
use geos_text::{Part, put_parts};

/// How a session prints answers, and reports lines that are wrong.
#[derive(Clone, Copy)]
pub(crate) struct Voice {
    pub(crate) reports: Reports,
    /// The number of the line, counted from 1.
    pub(crate) number: u64,
    /// Whether nothing is printed.
    pub(crate) is_mute: bool,
    /// Whether a line was wrong.
    pub(crate) has_bad: bool,
}

impl Voice {
    /// Prints an answer.
    pub(crate) fn print<'a>(&self, rt: &HostRuntime, text: &[u8]) -> Result<(), StreamFault<'a>> {
        if self.is_mute {
            Ok(())
        } else {
            print_lines(rt, text)
        }
    }

    /// Reports what is wrong with the line.
    pub(crate) fn blame<'a>(
        &mut self,
        rt: &HostRuntime,
        sentence: &[u8],
    ) -> Result<(), StreamFault<'a>> {
        self.has_bad = true;
        let parts = [
            Part::Numbered("line ", self.number),
            Part::Text(": "),
            Part::Bytes(sentence),
            Part::Text("\n"),
        ];
        let mut told = Vec::new(rt.alloc());
        if put_parts(&mut told, &parts).is_err() {
            return Err(StreamFault::Memory);
        }
        if !self.is_mute {
            tell(rt, self.reports, &told);
        }
        Ok(())
    }
}
