//! A session begins on a VM file, or on one in memory.

ghost use Rattle.geos_shell.specs.Limits.{IsRegion};

use crate::fault::PromptFault;
use crate::journal::open_journal;
use crate::past::Past;
use crate::record::Record;
use crate::reply::Stop;
use crate::running::kernel_on;
use crate::session::Session;
use crate::voice::Voice;
use geos_cli::ScriptFault;
use geos_files::{FileFault, Locked, opened, wait_for};
use geos_kernel::{Kernel, kernel_in_memory};
use geos_shell::{
    FileLock, Lockable, Named, Reason, Reports, STANDARD, Sharing, StreamFault, are_one_file_read,
    keep_from_output, tell,
};
use geos_texts::Runnable;
use geos_verify::Checked;
use std::alloc::Global;
use std::fs::File;
use vm_file::{Device, Disk, FileDevice, MemoryDevice, OpenError};

/// The handles of blocks are from 1 to this one.
const MOST_HANDLES: u16 = 1024;

/// What a session works on.
#[derive(Clone, Copy)]
pub struct Place<'a> {
    /// The path of the VM file; with none, it has one in memory.
    pub file: Option<&'a str>,
    /// The path of the file that gets the lines since the last commit, if one is required.
    pub journal: Option<&'a str>,
    /// How many bytes blocks in memory have.
    pub region: u32,
}

/// A kernel on a VM file of the system, and the lock on it, which lasts until the session ends.
#[derive(Drop)]
pub(crate) struct HeldFile<'a> {
    pub(crate) kernel: Kernel<FileDevice>,
    pub(crate) lock: FileLock<'a>,
}

/// The bytes of the VM file with the path, which a device holds.
fn bytes_of<'a>(
    alloc: Global,
    path: &'a str,
    device: &mut FileDevice,
) -> Result<Vec<u8>, FileFault<'a>> {
    let Ok(mut bytes) = Vec::from_elem(alloc, 0u8, device.len() as usize) else {
        return Err(FileFault::Stream(StreamFault::Memory));
    };
    match device.read_at(0, &mut bytes) {
        Ok(()) => Ok(bytes),
        Err(Disk) => Err(FileFault::Open(path, OpenError::Disk)),
    }
}

/// The VM file with the path, under its lock, and its bytes.
fn held<'a>(
    rt: &HostRuntime,
    path: &'a str,
    region: u32,
) -> Result<(Option<HeldFile<'a>>, Vec<u8>), FileFault<'a>>
    requires { IsRegion region }
{
    let Locked { device, lock } = wait_for(rt, Lockable::open(rt, path, Sharing::Alone)?)?;
    let mut device = opened(rt, path, device)?.into_device();
    let bytes = bytes_of(rt.alloc(), path, &mut device)?;
    match Kernel::new(rt.alloc(), region, opened(rt, path, device)?) {
        Ok(kernel) => Ok((Some(HeldFile { kernel, lock }), bytes)),
        Err(_) => Err(FileFault::Stream(StreamFault::Memory)),
    }
}

/// The bytes of a new VM file in memory. `None` if there is no memory.
fn new_bytes(alloc: Global, region: u32) -> Option<Vec<u8>>
    requires { IsRegion region }
{
    match kernel_in_memory(alloc, region) {
        Ok(kernel) => Vec::from_slice(alloc, kernel.device().as_slice()).ok(),
        Err(_) => None,
    }
}

/// The VM file of a place, if it is one of the system, and its bytes.
fn found<'a>(
    rt: &HostRuntime,
    place: &Place<'a>,
) -> Result<(Option<HeldFile<'a>>, Vec<u8>), FileFault<'a>>
    requires { IsRegion place.now.region }
{
    match place.file {
        Some(path) => held(rt, path, place.region),
        None => match new_bytes(rt.alloc(), place.region) {
            Some(bytes) => Ok((None, bytes)),
            None => Err(FileFault::Stream(StreamFault::Memory)),
        },
    }
}

/// A copy of the bytes of a VM file, and a kernel on another one. `None` if there is no memory.
fn copies(alloc: Global, bytes: &[u8], region: u32) -> Option<(Vec<u8>, Kernel<MemoryDevice>)> {
    let kernel = kernel_on(alloc, bytes, region)?;
    match Vec::from_slice(alloc, bytes) {
        Ok(copy) => Some((copy, kernel)),
        Err(_) => None,
    }
}

/// A session on the VM file of a place, before its first line.
fn begun<'s, 'a>(
    rt: &HostRuntime,
    reports: Reports,
    routines: &'s Runnable<'a>,
    checked: &'s Checked,
    place: &Place<'a>,
) -> Result<Session<'s, 'a>, PromptFault<'a>>
    requires { IsRegion place.now.region }
{
    let (file, start) = match found(rt, place) {
        Ok(found) => found,
        Err(fault) => return Err(PromptFault::File(fault)),
    };
    let Some((last, kernel)) = copies(rt.alloc(), &start, place.region) else {
        return Err(PromptFault::Session(ScriptFault::Memory));
    };
    Ok(Session {
        record: Record {
            routines,
            checked,
            region: place.region,
            start,
            past: Past::new(rt.alloc()),
        },
        place: *place,
        voice: Voice {
            reports,
            number: 0,
            is_mute: true,
            has_bad: false,
        },
        last,
        kernel,
        journal: None,
        file,
    })
}

/// Opens the journal of a place, if one is required, and returns its lines too. It is none of the files that the session reads or prints
/// into.
fn journal_of<'a>(
    rt: &HostRuntime,
    image: &'a str,
    place: &Place<'a>,
) -> Result<(Option<File>, Vec<u8>), PromptFault<'a>> {
    let Some(path) = place.journal else {
        return Ok((None, Vec::new(rt.alloc())));
    };
    keep_from_output(rt, path)?;
    if are_one_file_read(rt, path, STANDARD)
        || are_one_file_read(rt, path, image)
        || are_one_file_read(rt, path, place.file.unwrap_or(STANDARD))
    {
        return Err(PromptFault::Stream(StreamFault::Write(path, Reason::IN_USE)));
    }
    let (journal, lines) = open_journal(rt, path)?;
    Ok((Some(journal), lines))
}

impl<'a> Place<'a> {
    /// The fault of a session that ends early.
    pub(crate) fn fault_of(&self, stop: Stop) -> PromptFault<'a> {
        match stop {
            Stop::Memory => PromptFault::Session(ScriptFault::Memory),
            Stop::TooLong => PromptFault::Session(ScriptFault::TooLong),
            Stop::Journal => PromptFault::Stream(StreamFault::Write(
                self.journal.unwrap_or(STANDARD),
                Reason::OTHER,
            )),
            Stop::NotTaken => PromptFault::NotTaken(self.file.unwrap_or(STANDARD)),
        }
    }
}

impl<'a> Session<'_, 'a> {
    /// Opens the journal, if one is required, and carries out its lines.
    fn take_up(&mut self, rt: &HostRuntime) -> Result<(), PromptFault<'a>> {
        let (journal, lines) = journal_of(rt, self.record.routines.path, &self.place)?;
        self.resume(rt, &lines)?;
        self.journal = journal;
        self.voice.is_mute = false;
        self.voice.has_bad = false;
        Ok(())
    }
}

/// How many blocks of the VM file are changed.
fn count_changed(kernel: &Kernel<MemoryDevice>) -> u16 {
    let mut changed: u16 = 0;
    for handle in 1..=MOST_HANDLES {
        if kernel.marked(handle) {
            changed = changed.saturating_add(1);
        }
    }
    changed
}

/// Reports the changed blocks of the VM file with the path that no commit has written, as a diagnostic. What is lost in memory is not reported.
fn tell_of_lost(rt: &HostRuntime, reports: Reports, file: Option<&str>, changed: u16) {
    let Some(path) = file else {
        return;
    };
    if changed == 0 || !reports.diagnostics {
        return;
    }
    let path = Named(path);
    if let Ok(note) = format!(in rt.alloc();
        "{path}: note: changed blocks that are not committed: {changed}; commit them by update or save\n"
    ) {
        tell(rt, reports, note.as_bytes());
    }
}

/// Answers the lines of the standard input one after another, by the routines, on a VM file of the system or on a new one in memory. The VM
/// file is locked until the session ends, and changes only by commits of the lines. A line that is wrong is reported, and does nothing.
/// Returns whether no line was wrong.
pub fn shell<'a>(
    rt: &HostRuntime,
    reports: Reports,
    routines: &Runnable<'a>,
    place: &Place<'a>,
) -> Result<bool, PromptFault<'a>>
    requires { IsRegion place.now.region }
{
    keep_from_output(rt, STANDARD)?;
    let checked = match routines.checked(rt.alloc()) {
        Ok(checked) => checked,
        Err(fault) => return Err(PromptFault::Session(fault)),
    };
    let mut session = begun(rt, reports, routines, &checked, place)?;
    session.take_up(rt)?;
    session.go_on(rt)?;
    tell_of_lost(rt, reports, place.file, count_changed(&session.kernel));
    Ok(!session.voice.has_bad)
}
