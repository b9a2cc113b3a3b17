//! The state of a session, and what becomes of a command.

use crate::journal::{clear, note};
use crate::record::Record;
use crate::reply::{Reply, Stop, wrong};
use crate::running::{Done, carry_out, carry_out_from};
use crate::start::{HeldFile, Place};
use crate::voice::Voice;
use geos_cli::ScriptFault;
use geos_kernel::Kernel;
use script_commands::{MOST_KEPT, kept_name};
use std::alloc::Global;
use std::fs::File;
use vm_file::MemoryDevice;

/// The state of a session.
#[derive(Drop)]
pub(crate) struct Session<'s, 'a> {
    pub(crate) record: Record<'s, 'a>,
    pub(crate) place: Place<'a>,
    pub(crate) voice: Voice,
    /// The bytes of the VM file after the last commit.
    pub(crate) last: Vec<u8>,
    /// A kernel on a copy of the VM file, after all lines of the past.
    pub(crate) kernel: Kernel<MemoryDevice>,
    pub(crate) journal: Option<File>,
    /// The VM file, if it is no file in memory, after the last commit.
    pub(crate) file: Option<HeldFile<'a>>,
}

/// Carries out a line on the copy of the VM file. `None` in it if the line is bad.
fn try_out(
    alloc: Global,
    record: &Record<'_, '_>,
    line: &[u8],
    kernel: &mut Kernel<MemoryDevice>,
) -> Result<Option<Done>, ScriptFault> {
    let Some(names) = record.past.names(alloc) else {
        return Err(ScriptFault::Memory);
    };
    if names.len() >= MOST_KEPT && kept_name(line).is_some() {
        return Ok(None);
    }
    carry_out(alloc, record.checked, &names, line, kernel)
}

impl Session<'_, '_> {
    /// The copy of the VM file has committed: the lines since the last commit are carried out on the VM file too, and the journal forgets them
    /// first.
    fn commit(&mut self, alloc: Global, printed: &[u8]) -> Result<(), Stop> {
        if let Some(held) = &mut self.file {
            clear(&mut self.journal)?;
            let first = self.record.past.fixed;
            match carry_out_from(
                alloc,
                self.record.checked,
                &self.record.past,
                first,
                &mut held.kernel,
            ) {
                Some(again) if again.as_slice() == printed => {}
                Some(_) => return Err(Stop::NotTaken),
                None => return Err(Stop::Memory),
            }
        }
        let Ok(last) = Vec::from_slice(alloc, self.kernel.device().as_slice()) else {
            return Err(Stop::Memory);
        };
        self.last = last;
        self.record.past.fixed = self.record.past.text.len();
        Ok(())
    }

    /// The last line is noted in the journal, or committed if it has changed the copy of the VM file. Without a VM file the journal keeps all
    /// lines.
    fn settle(&mut self, alloc: Global, printed: &[u8]) -> Result<(), Stop> {
        if self.record.past.is_too_long() {
            return Err(Stop::TooLong);
        }
        let is_commit = self.kernel.device().as_slice() != self.last.as_slice();
        if !is_commit || self.file.is_none() {
            note(&mut self.journal, self.record.past.last())?;
        }
        if is_commit {
            self.commit(alloc, printed)
        } else {
            Ok(())
        }
    }

    /// Carries out a line without its comment: on the copy of the VM file, and if it has committed there, with the lines before it on the
    /// VM file too. `None` if there is no memory.
    pub(crate) fn command(&mut self, alloc: Global, line: &[u8]) -> Option<Reply> {
        match try_out(alloc, &self.record, line, &mut self.kernel) {
            Ok(Some(Done { printed, word })) => {
                if !self.record.past.add(line, word) {
                    return None;
                }
                match self.settle(alloc, &printed) {
                    Ok(()) => Some(Reply::Text(printed)),
                    Err(stop) => Some(Reply::Stop(stop)),
                }
            }
            Ok(None) => self.record.why_bad(alloc, line),
            Err(_) => None,
        }
    }

    /// Takes the last command back. `None` if there is no memory.
    pub(crate) fn undo(&mut self, alloc: Global) -> Option<Reply> {
        if !self.record.past.undo() {
            return wrong(
                alloc,
                "there is nothing to take back: no command since the last commit",
            );
        }
        if let Err(stop) = note(&mut self.journal, b"undo\n") {
            return Some(Reply::Stop(stop));
        }
        self.kernel = self.record.again(alloc)?;
        Some(Reply::Text(Vec::new(alloc)))
    }
}
