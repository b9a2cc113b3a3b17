//! What becomes of changed blocks at the end of a run on a VM file.

use crate::bad_lines::printed_path;
use crate::fault::RunFault;
use crate::manner::Manner;
use crate::objects::print_lost;
use geos_kernel::Kernel;
use geos_shell::{EndCommit, tell};
use geos_terms::Refusal;
use sentence_text::Text;
use std::alloc::{AllocError, Global};
use vm_file::{FileDevice, How};

/// The handles of blocks are from 1 to this one.
const MOST_HANDLES: u16 = 1024;

/// How many blocks of the file are marked as changed.
fn changed_blocks(kernel: &Kernel<FileDevice>) -> usize {
    let mut changed: usize = 0;
    for handle in 1..=MOST_HANDLES {
        if kernel.marked(handle) {
            changed = changed.saturating_add(1);
        }
    }
    changed
}

/// The note that so many changed blocks of the file with the path are lost.
fn lost_note(alloc: Global, path: &str, changed: usize) -> Result<Vec<u8>, AllocError> {
    let file = printed_path(alloc, path)?;
    let mut note = Text::new(alloc);
    note.put(&file);
    note.put_number(
        ": note: changed blocks that are not committed: ",
        changed as u64,
    );
    note.put("; commit them by update or save, or give --update or --save\n");
    note.finish()
}

/// Reports the changed blocks of the file with the path that no commit has written, as a diagnostic.
fn tell_of_lost(rt: &HostRuntime, manner: &Manner, path: &str, kernel: &Kernel<FileDevice>) {
    let changed = changed_blocks(kernel);
    if changed == 0 {
        return;
    }
    if manner.reports.json {
        return print_lost(rt, path, changed);
    }
    if let Ok(note) = lost_note(rt.alloc(), path, changed) {
        tell(rt, manner.reports, &note);
    }
}

/// What is committed at the end of a run.
fn how_of(commit: Option<EndCommit>) -> Option<How> {
    match commit {
        Some(EndCommit::Update) => Some(How::Update),
        Some(EndCommit::Save) => Some(How::Save),
        None => None,
    }
}

/// Commits. `RunFault::NotDone` if that is refused.
fn commit<'a>(kernel: &mut Kernel<FileDevice>, how: How) -> Result<(), RunFault<'a>> {
    if !kernel.vm_unlocked() {
        return Err(RunFault::NotDone(Refusal::Locked.number()));
    }
    match kernel.commit(how) {
        Ok(()) => Ok(()),
        Err(refusal) => Err(RunFault::NotDone(refusal.number())),
    }
}

/// Ends a run on the file with the path. If it came to its end, it commits as asked; `RunFault::NotDone` if the commit is refused.
pub(crate) fn ended<'a>(
    rt: &HostRuntime,
    manner: &Manner,
    path: &str,
    kernel: &mut Kernel<FileDevice>,
    done: Result<(), RunFault<'a>>,
) -> Result<(), RunFault<'a>> {
    match how_of(manner.commit) {
        Some(how) if done.is_ok() => commit(kernel, how),
        _ => {
            if manner.reports.diagnostics || manner.reports.json {
                tell_of_lost(rt, manner, path, kernel);
            }
            done
        }
    }
}
