//! Calls on VM files and on their devices. Each block has 64 bytes, with a chunk of two bytes; the first of these tells the blocks apart.
//!
//! - `memory LEN` makes a device in memory, `system LEN` one on a file of the system. `system_open` opens this file,
//!   `system_open_read_only` opens it only for reading, and `system_remove` removes it. Calls use the last device.
//! - `cached LEN CALL` makes a device with a cache; this call of the device and each later one fails.
//!   `power_off PART..` replaces it with a device in memory that has what a stop leaves: in each part of 512 bytes, 0
//!   the durable bytes, 1 the written bytes, 2 garbage.
//! - `write AT COUNT BYTE..`, `write_block AT H BYTE`, `read AT COUNT`, `sync`: calls on the device itself. `calls`
//!   prints how many calls it had. `keep` saves a copy of its bytes.
//! - `fail CALL` and `stop CALL` make a device in memory with the saved bytes; this call fails, or this call and each
//!   later one. After `go_on` no call of the device fails any more. `cut LEN` opens the first LEN saved bytes.
//! - `create AREA`, `open`, `current`, `saved`, `block H`, `saved_block H`: calls on the file. `pair` prints the bytes of
//!   block 1, `blocks` prints how many blocks there are.
//! - `no_block`, `entry H USER LEN`, `entries FROM TO USER`, `map_block H`, `map_item GROUP ITEM` and `take_current`
//!   make the directory that is to be committed, `resident H BYTE`, `residents FROM TO BYTE` and `absent` the blocks in
//!   memory; `update`, `save` and `revert` commit.

use crate::draft::Draft;
use crate::stand::{NO_DEVICE, Stand};
use crate::{Answer, done, text};
use cached_device::{CachedDevice, Part};
use std::alloc::{AllocError, Global};
use std::fs;
use trial_lines::{Line, told};
use vm_file::{Device, Disk, FaultDevice, FileDevice, MemoryDevice, OpenError, VmFile};

/// The file of the system.
const PATH: &str = "trial.vm";

/// The device that calls go to.
#[derive(Drop)]
enum Bench {
    Memory(Stand<MemoryDevice>),
    System(Stand<FileDevice>),
    Cached(Stand<CachedDevice>),
}

/// A device, a copy of the bytes of one, and what is to be committed.
#[derive(Drop)]
pub(crate) struct FileTrial {
    bench: Bench,
    kept: Vec<u8>,
    draft: Draft,
}

impl FileTrial {
    /// A trial without a device, without saved bytes, and with nothing to commit.
    pub(crate) fn new(alloc: Global) -> FileTrial {
        FileTrial {
            bench: Bench::Memory(Stand::Nothing),
            kept: Vec::new(alloc),
            draft: Draft::new(alloc),
        }
    }

    /// Makes the call of a line.
    pub(crate) fn answer(
        &mut self,
        rt: &HostRuntime,
        line: &Line<'_>,
    ) -> Result<Answer, AllocError> {
        let alloc = rt.alloc();
        let [number, call, ..] = line.numbers;
        let call = u64::from(call);
        match line.word {
            "memory" => self.put(MemoryDevice::new(alloc, u64::from(number))?, 0, false),
            "fail" | "stop" => {
                let device = self.device(alloc)?;
                self.put(device, u64::from(number), line.word == "stop");
            }
            "cached" => {
                let device = CachedDevice::new(alloc, u64::from(number))?;
                self.set(Bench::Cached(Stand::new(device, call, true)));
            }
            "power_off" => return self.power_off(alloc, line),
            "keep" => return self.keep(alloc),
            "system"
            | "system_open"
            | "system_open_read_only"
            | "system_open_folder"
            | "system_remove" => return self.on_system(rt, line),
            "cut" => return self.cut(alloc, number as usize),
            "no_block"
            | "entry"
            | "entries"
            | "map_block"
            | "map_item"
            | "resident"
            | "residents"
            | "absent" => return self.draft.answer(alloc, line),
            _ => return self.on_device(alloc, line),
        }
        Ok(Answer::Done)
    }

    /// A device with the saved bytes.
    fn device(&self, alloc: Global) -> Result<MemoryDevice, AllocError> {
        device_of(alloc, &self.kept)
    }

    /// Puts a device in memory in the place of the one before.
    fn put(&mut self, device: MemoryDevice, call: u64, rest: bool) {
        self.set(Bench::Memory(Stand::new(device, call, rest)));
    }

    /// Puts a device in the place of the one before.
    fn set(&mut self, bench: Bench) {
        self.bench = bench;
    }

    /// Makes a call on the device, or on the file that is open on it.
    fn on_device(&mut self, alloc: Global, line: &Line<'_>) -> Result<Answer, AllocError> {
        let draft = &mut self.draft;
        match &mut self.bench {
            Bench::Memory(stand) => stand.answer(alloc, line, draft),
            Bench::System(stand) => stand.answer(alloc, line, draft),
            Bench::Cached(stand) => stand.answer(alloc, line, draft),
        }
    }

    /// Puts a device in memory in the place of the one with a cache, with what a stop leaves of that.
    fn power_off(&mut self, alloc: Global, line: &Line<'_>) -> Result<Answer, AllocError> {
        let device = match &mut self.bench {
            Bench::Cached(stand) => stand.take(),
            _ => None,
        };
        let Some(device) = device else {
            return Ok(Answer::NotAsked(NO_DEVICE));
        };
        self.kept = device.into_inner().after_stop(&parts_of(line))?;
        let left = self.device(alloc)?;
        self.put(left, 0, false);
        Ok(Answer::Done)
    }

    /// Keeps the bytes of the device.
    fn keep(&mut self, alloc: Global) -> Result<Answer, AllocError> {
        let bytes = match &mut self.bench {
            Bench::Memory(stand) => stand.bytes(alloc)?,
            Bench::System(stand) => stand.bytes(alloc)?,
            Bench::Cached(stand) => stand.bytes(alloc)?,
        };
        match bytes {
            Some(bytes) => self.kept = bytes,
            None => return Ok(Answer::NotAsked(NO_DEVICE)),
        }
        Ok(Answer::Done)
    }

    /// Makes, opens or removes the file of the system.
    fn on_system(&mut self, rt: &HostRuntime, line: &Line<'_>) -> Result<Answer, AllocError> {
        let alloc = rt.alloc();
        let len = u64::from(line.numbers[0]);
        let device = match line.word {
            "system" => FileDevice::create(rt, alloc, PATH, len),
            "system_open" => FileDevice::open(rt, alloc, PATH),
            "system_open_read_only" => FileDevice::open_read_only(rt, alloc, PATH),
            "system_open_folder" => FileDevice::open(rt, alloc, "."),
            _ => return done(alloc, fs::remove_file(rt, PATH).map_err(|_| Disk)),
        };
        match device {
            Ok(device) => {
                let len = device.len();
                self.set(Bench::System(Stand::new(device, 0, false)));
                text(format!(in alloc; "{len} bytes"))
            }
            Err(Disk) => told(alloc, Disk),
        }
    }

    /// Opens a device with the first ones of the saved bytes.
    fn cut(&self, alloc: Global, len: usize) -> Result<Answer, AllocError> {
        let bytes = self.kept.get(..len).unwrap_or(&self.kept);
        match VmFile::open(alloc, device_of(alloc, bytes)?) {
            Ok(_) => Ok(Answer::Done),
            Err((_, OpenError::Memory)) => Err(AllocError),
            Err((_, why)) => told(alloc, why),
        }
    }
}

/// A device with these bytes.
fn device_of(alloc: Global, bytes: &[u8]) -> Result<MemoryDevice, AllocError> {
    let mut device = MemoryDevice::new(alloc, bytes.len() as u64)?;
    // It has exactly this length, so the write is within it.
    let _ = device.write_at(0, bytes);
    Ok(device)
}

/// What a stop leaves of each part of a write, by the numbers of a line.
pub(crate) fn parts_of(line: &Line<'_>) -> [Part; 8] {
    line.numbers.map(|choice| match choice {
        1 => Part::New,
        2 => Part::Garbage,
        _ => Part::Old,
    })
}
