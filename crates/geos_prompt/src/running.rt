//! Lines are carried out on a kernel.

use crate::past::Past;
use geos_cli::{Counted, Form, Progress, ScriptFault, Unwatched, Writing};
use geos_kernel::Kernel;
use geos_terms::Refusal;
use geos_text::first_line;
use geos_verify::Checked;
use script_commands::{Kept, command_in, keep, print_refusal};
use std::alloc::Global;
use vm_file::{Device, MemoryDevice, VmFile};

/// How outputs are printed: each word in decimal, on a line.
const PLAIN: Form = Form {
    writing: Writing::Decimal,
    label: false,
};

/// A line that was carried out.
#[derive(Drop)]
pub(crate) struct Done {
    /// What it printed.
    pub(crate) printed: Vec<u8>,
    /// The first word that it output.
    pub(crate) word: Option<u16>,
}

/// Carries out the command of a line without its comment. `None` if the line is bad, with the words that its names have. No block is locked
/// between commands; if one is, the command is refused.
pub(crate) fn carry_out<D: Device + Drop>(
    alloc: Global,
    checked: &Checked,
    names: &[Kept],
    line: &[u8],
    kernel: &mut Kernel<D>,
) -> Result<Option<Done>, ScriptFault> {
    let Some(command) = command_in(alloc, checked, names, line)? else {
        return Ok(None);
    };
    let mut out = Counted::new(Vec::new(alloc));
    if !kernel.vm_unlocked() {
        print_refusal(Refusal::Locked, &mut out)?;
        return Ok(Some(Done {
            printed: out.stream,
            word: None,
        }));
    }
    let mut progress = Progress::new(checked, Unwatched);
    match progress.carry_out_next(alloc, PLAIN, checked, &command, kernel, &mut out) {
        // The same line might be done another time.
        Ok((Err(Refusal::Memory), _)) => Err(ScriptFault::Memory),
        Ok((_done, word)) => Ok(Some(Done {
            printed: out.stream,
            word,
        })),
        Err(_) => Err(ScriptFault::Memory),
    }
}

/// Carries out the lines of the past whose text begins at this place or later, and returns what the last one printed. `None` if there is no
/// memory.
pub(crate) fn carry_out_from<D: Device + Drop>(
    alloc: Global,
    checked: &Checked,
    past: &Past,
    first: usize,
    kernel: &mut Kernel<D>,
) -> Option<Vec<u8>> {
    let mut names = Vec::new(alloc);
    let mut printed = Vec::new(alloc);
    let mut rest: &[u8] = &past.text;
    for row in &past.rows {
        let (line, behind) = first_line(rest);
        rest = behind;
        if row.start >= first {
            match carry_out(alloc, checked, &names, line, kernel) {
                Ok(Some(done)) => printed = done.printed,
                Ok(None) => {}
                Err(_) => return None,
            }
        }
        if keep(&mut names, line, row.word).is_err() {
            return None;
        }
    }
    Some(printed)
}

/// A kernel on a VM file of these bytes in memory, with so many bytes for blocks in memory: 65,536 to 16,777,216. `None` if there is no
/// memory.
pub(crate) fn kernel_on(alloc: Global, bytes: &[u8], region: u32) -> Option<Kernel<MemoryDevice>> {
    if region < 65_536 || region > 16_777_216 {
        return None;
    }
    let Ok(mut device) = MemoryDevice::new(alloc, bytes.len() as u64) else {
        return None;
    };
    if device.write_at(0, bytes).is_err() {
        return None;
    }
    // The same bytes have been opened before.
    match VmFile::open(alloc, device) {
        Ok(file) => match Kernel::new(alloc, region, file) {
            Ok(kernel) => Some(kernel),
            Err(_) => None,
        },
        Err(_) => None,
    }
}
