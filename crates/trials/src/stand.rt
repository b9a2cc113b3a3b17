//! A device, and what is open on it.

use crate::draft::{BYTE, Block, Draft, SIZE, block_with};
use crate::{Answer, done, text};
use geos_kernel::Kernel;
use std::alloc::{AllocError, Global};
use std::fmt::Write;
use std::mem;
use trial_lines::{Line, Runs, told};
use vm_file::{
    CommitError, CreateError, Device, Directory, Disk, Entry, FaultDevice, How, OpenError, VmFile,
    device_length,
};

/// That there is no device.
pub(crate) const NO_DEVICE: &str = "no device";

/// How far the calls on a device have come.
#[derive(Drop)]
pub(crate) enum Stand<D: Device + Drop> {
    /// There is no device.
    Nothing,
    /// There is a device, and no file is open on it.
    Device(FaultDevice<D>),
    /// A file is open on the device.
    File(VmFile<FaultDevice<D>>),
    /// There is a kernel on the device.
    Kernel(Kernel<FaultDevice<D>>),
}

impl<D: Device + Drop> Stand<D> {
    /// The device, of which the call of this number fails; with `rest` each later one does too, and 0 lets none fail.
    pub(crate) fn new(device: D, call: u64, rest: bool) -> Stand<D> {
        Stand::Device(FaultDevice::new(device, call, rest))
    }

    /// Takes the device away. What is open on it is closed.
    pub(crate) fn take(&mut self) -> Option<FaultDevice<D>> {
        match mem::replace(self, Stand::Nothing) {
            Stand::Nothing => None,
            Stand::Device(device) => Some(device),
            Stand::File(file) => Some(file.into_device()),
            Stand::Kernel(kernel) => Some(kernel.close()),
        }
    }

    /// Makes a call on the device, for which the file is closed, or on the file.
    pub(crate) fn answer(
        &mut self,
        alloc: Global,
        line: &Line<'_>,
        draft: &mut Draft,
    ) -> Result<Answer, AllocError> {
        if let "create"
        | "open"
        | "go_on"
        | "write"
        | "write_block"
        | "read"
        | "sync"
        | "calls" = line.word
        {
            return match self.take() {
                Some(device) => self.on_device(alloc, line, device),
                None => Ok(Answer::NotAsked(NO_DEVICE)),
            };
        }
        match self {
            Stand::File(file) => on_file(alloc, line, file, draft),
            _ => Ok(Answer::NotAsked("no file is open")),
        }
    }

    /// Puts this in the place of what there was.
    pub(crate) fn put(&mut self, stand: Stand<D>) {
        *self = stand;
    }

    /// Makes a call on the device, and keeps what is there then.
    fn on_device(
        &mut self,
        alloc: Global,
        line: &Line<'_>,
        mut device: FaultDevice<D>,
    ) -> Result<Answer, AllocError> {
        match line.word {
            "create" => Ok(self.keep(created(alloc, device, line.numbers[0])?)),
            "open" => Ok(self.keep(opened(alloc, device)?)),
            "go_on" => {
                self.put(Stand::new(device.into_inner(), 0, false));
                Ok(Answer::Done)
            }
            _ => {
                let answer = on_bytes(alloc, line, &mut device);
                self.put(Stand::Device(device));
                answer
            }
        }
    }

    /// Keeps a file that was made or opened, or the device where it was not.
    pub(crate) fn keep(&mut self, outcome: Opened<D>) -> Answer {
        match outcome {
            Ok(file) => {
                self.put(Stand::File(file));
                Answer::Done
            }
            Err((device, answer)) => {
                self.put(Stand::Device(device));
                answer
            }
        }
    }

    /// All bytes of the device, for which a file is closed; none if there is no device, or it fails.
    pub(crate) fn bytes(&mut self, alloc: Global) -> Result<Option<Vec<u8>>, AllocError> {
        let Some(mut device) = self.take() else {
            return Ok(None);
        };
        let mut bytes = vec![in alloc; 0u8; device.len() as usize]?;
        let outcome = device.read_at(0, &mut bytes);
        self.put(Stand::Device(device));
        Ok(outcome.ok().map(|()| bytes))
    }
}

/// A file that was made or opened, or its device with the answer why it was not.
pub(crate) type Opened<D> = Result<VmFile<FaultDevice<D>>, (FaultDevice<D>, Answer)>;

/// Makes a file with areas of this size.
pub(crate) fn created<D: Device + Drop>(
    alloc: Global,
    device: FaultDevice<D>,
    area: u32,
) -> Result<Opened<D>, AllocError> {
    if area < 512 || area > 16_777_216 || area % 512 != 0 || device.len() < device_length(area) {
        return Ok(Err((device, Answer::NotAsked("no such area"))));
    }
    match VmFile::create(alloc, device, area) {
        Ok(file) => Ok(Ok(file)),
        Err((_, CreateError::Memory)) => Err(AllocError),
        Err((device, why)) => Ok(Err((device, told(alloc, why)?))),
    }
}

/// Opens the file that a device holds.
pub(crate) fn opened<D: Device + Drop>(
    alloc: Global,
    device: FaultDevice<D>,
) -> Result<Opened<D>, AllocError> {
    match VmFile::open(alloc, device) {
        Ok(file) => Ok(Ok(file)),
        Err((_, OpenError::Memory)) => Err(AllocError),
        Err((device, why)) => Ok(Err((device, told(alloc, why)?))),
    }
}

/// Makes a call on the bytes of a device.
fn on_bytes<D: Device + Drop>(
    alloc: Global,
    line: &Line<'_>,
    device: &mut FaultDevice<D>,
) -> Result<Answer, AllocError> {
    let [at, count, ..] = line.numbers;
    let at = u64::from(at);
    match line.word {
        "write" => {
            let bytes = line.numbers.map(|number| number.min(255) as u8);
            match bytes.get(2..(count as usize).saturating_add(2)) {
                Some(bytes) => done(alloc, device.write_at(at, bytes)),
                None => Ok(Answer::NotAsked("too many bytes")),
            }
        }
        "write_block" => {
            let block = block_with(line.word_at(1), line.byte_at(2));
            done(alloc, device.write_at(at, &block))
        }
        "read" => {
            let mut bytes = vec![in alloc; 9u8; count as usize]?;
            match device.read_at(at, &mut bytes) {
                Ok(()) => told(alloc, Runs(&bytes)),
                Err(Disk) => text(format!(in alloc; "{Disk}, and the bytes are {}", Runs(&bytes))),
            }
        }
        "sync" => done(alloc, device.sync()),
        _ => {
            let (calls, failures) = (device.calls(), device.failures());
            text(format!(in alloc; "{calls}, and {failures} of them failed"))
        }
    }
}

/// Makes a call on a file.
fn on_file<D: Device + Drop>(
    alloc: Global,
    line: &Line<'_>,
    file: &mut VmFile<D>,
    draft: &mut Draft,
) -> Result<Answer, AllocError> {
    let h = line.word_at(0);
    match line.word {
        "current" => listed(alloc, file.current()),
        "saved" => listed(alloc, file.saved()),
        "block" | "saved_block" => bytes_of(alloc, block(file, h, line.word == "saved_block")),
        "pair" => {
            let current = byte_of(block(file, 1, false));
            let saved = byte_of(block(file, 1, true));
            text(format!(in alloc; "current {current}, saved {saved}"))
        }
        "blocks" => {
            let (current, saved) = (file.current().entries.len(), file.saved().entries.len());
            text(format!(in alloc; "current {current}, saved {saved}"))
        }
        "take_current" => {
            draft.directory.copy_from(file.current());
            Ok(Answer::Done)
        }
        "update" => commit(alloc, file, How::Update, draft),
        "save" => commit(alloc, file, How::Save, draft),
        "revert" => commit(alloc, file, How::Revert, draft),
        _ => Ok(Answer::NotACall),
    }
}

/// The blocks of a directory, and what it maps.
fn listed(alloc: Global, directory: &Directory) -> Result<Answer, AllocError> {
    let mut text = String::new(alloc);
    for Entry { h, uid, len } in directory.entries.iter() {
        let gap = if text.is_empty() { "" } else { ", " };
        write!(text, "{gap}{h} (user {uid}, {len} bytes)")?;
    }
    if text.is_empty() {
        text.push_str("no block")?;
    }
    let (group, item) = directory.map_item;
    write!(
        text,
        "; map block {}; map item {item} of {group}",
        directory.map_block
    )?;
    Ok(Answer::Text(text))
}

/// The block of a directory with a handle, where it has one of the blocks' size.
fn block<D: Device + Drop>(
    file: &mut VmFile<D>,
    h: u16,
    saved: bool,
) -> Option<Result<Block, Disk>> {
    let mut block = [9; SIZE];
    let outcome = if saved {
        if file.saved().entry(h)?.len as usize != SIZE {
            return None;
        }
        file.saved_block(h, &mut block)
    } else {
        if file.current().entry(h)?.len as usize != SIZE {
            return None;
        }
        file.block(h, &mut block)
    };
    Some(outcome.map(|()| block))
}

/// The byte in the chunk of a block.
fn byte_of(block: Option<Result<Block, Disk>>) -> Answer {
    match block {
        Some(Ok(block)) => Answer::Number(u32::from(block[BYTE])),
        Some(Err(Disk)) => Answer::Said("disk"),
        None => Answer::Said("none"),
    }
}

/// All bytes of a block.
fn bytes_of(alloc: Global, block: Option<Result<Block, Disk>>) -> Result<Answer, AllocError> {
    match block {
        Some(Ok(block)) => told(alloc, Runs(&block)),
        Some(Err(Disk)) => told(alloc, Disk),
        None => Ok(Answer::NotAsked("no such block")),
    }
}

/// Commits what may be committed.
fn commit<D: Device + Drop>(
    alloc: Global,
    file: &mut VmFile<D>,
    how: How,
    draft: &Draft,
) -> Result<Answer, AllocError> {
    if !file.may_commit(&draft.directory, &draft.memory) {
        return Ok(Answer::NotAsked("it may not be committed"));
    }
    match file.commit(how, &draft.directory, &draft.memory) {
        Err(CommitError::Memory) => Err(AllocError),
        outcome => done(alloc, outcome),
    }
}
