//! A kernel on a device with a cache, and routines over it.
//!
//! `kernel BYTES AREA` makes a new kernel, with a region of BYTES bytes and a new VM file with an area of AREA bytes, 65,536 if it is
//! missing. After the name of a call come the handle of its block and the arguments; `vm_` before the name of a call on chunks or through
//! spans selects a block of the VM file. `load8 H C AT`, `load16 H C AT`, `store8 H C AT BYTE` and `store16 H C AT WORD` begin with the
//! `deref` of the chunk; with `caelt_` before the name, the index of an element follows the chunk. `copy H TO FROM N` copies from chunk to
//! chunk, and `bytes H C` reads all bytes of a chunk.
//!
//! `state` prints what the kernel has: whether it is sure of its file, what is mapped, and each block with its user ID, whether it is
//! marked, its lock count and its chunks (`HANDLE:LENGTH`). It locks each block of the file for this, and so loads it into memory.
//! `contents` also prints the bytes of each chunk. `fill FROM TO N` makes a block and a chunk of `n` bytes for each of these handles.
//!
//! An image is read and checked as in `routines`. `call R WORD ..` runs its routine R, counted from 0, on at most seven words over the
//! kernel. `lend H ..` sets the handles of the blocks that later runs borrow, s0 first; `vlock` must lock them before.
//!
//! `close` drops the kernel, and its device stays. `open` makes a kernel on this device, `kept` prints what the device has, `kept_bytes`
//! also the bytes of blocks, and `calls` how many calls the device had since it was made or opened. `power_off PART..` changes the device
//! to what a stop leaves, as in `files`. `fail CALL` and `stop CALL` come before `kernel` or `open`: the call of this number of that
//! kernel's device fails, or this call and each later one.

ghost use Rattle.std.specs.Prelude.{◌≤◌};

use crate::calls::{call, fill};
use crate::files::parts_of;
use crate::routines::Routines;
use crate::spans::bytes;
use crate::stand::{Opened, Stand, created, opened};
use crate::state::{kept, state};
use crate::{Answer, text};
use cached_device::CachedDevice;
use geos_kernel::Kernel;
use std::alloc::{AllocError, Global};
use trial_lines::{Line, told};
use vm_file::{Device, FaultDevice, device_length};

/// That there is no kernel to make a call on.
const NO_KERNEL: &str = "no kernel";

/// That there is no device, or a kernel on it.
const NO_DEVICE: &str = "no device without a kernel";

/// The lengths of the smallest and of the largest region that a kernel has.
const LEAST: u32 = 65_536;

const MOST: u32 = 16_777_216;

/// A kernel on its device, and routines.
#[derive(Drop)]
pub(crate) struct KernelTrial {
    /// How long the region is of the kernel that was made last.
    region: u32,
    /// The call of the next device that fails, 0 for none.
    fault: u64,
    /// Whether each call after it fails too.
    rest: bool,
    stand: Stand<CachedDevice>,
    pub(crate) routines: Routines,
}

impl KernelTrial {
    /// No device yet.
    pub(crate) fn new(alloc: Global) -> KernelTrial {
        KernelTrial {
            region: LEAST,
            fault: 0,
            rest: false,
            stand: Stand::Nothing,
            routines: Routines::new(alloc),
        }
    }

    /// Makes the call of a line.
    pub(crate) fn answer(&mut self, alloc: Global, line: &Line<'_>) -> Result<Answer, AllocError> {
        let routines = &mut self.routines;
        match line.word {
            "kernel" => self.renew(alloc, line),
            "open" => self.open(alloc),
            "fail" | "stop" => {
                self.fault = u64::from(line.numbers[0]);
                self.rest = line.word == "stop";
                Ok(Answer::Done)
            }
            "image" | "end" | "check" | "byte" | "routine" | "lend" => routines.answer(alloc, line),
            "close" => Ok(self.close()),
            "power_off" => self.power_off(alloc, line),
            "calls" | "kept" | "kept_bytes" => self.on_device(alloc, line.word),
            _ => match &mut self.stand {
                Stand::Kernel(kernel) => on_kernel(alloc, kernel, routines, line),
                _ => Ok(Answer::NotAsked(NO_KERNEL)),
            },
        }
    }

    /// Makes a kernel on a new VM file on a new device, with a region and an area of so many bytes.
    fn renew(&mut self, alloc: Global, line: &Line<'_>) -> Result<Answer, AllocError> {
        let [region, area, ..] = line.numbers;
        let area = if area == 0 { 65_536 } else { area };
        if region < LEAST || region > MOST {
            return Ok(Answer::NotAsked("no region of this size"));
        }
        if area > MOST || area % 512 != 0 {
            return Ok(Answer::NotAsked("no area of this size"));
        }
        self.region = region;
        let device = CachedDevice::new(alloc, device_length(area))?;
        let device = self.faulty(device);
        self.begin(alloc, created(alloc, device, area)?)
    }

    /// Makes a kernel on what the device holds. A kernel that is there is let go.
    fn open(&mut self, alloc: Global) -> Result<Answer, AllocError> {
        let Some(device) = self.stand.take() else {
            return Ok(Answer::NotAsked(NO_DEVICE));
        };
        let device = self.faulty(device.into_inner());
        self.begin(alloc, opened(alloc, device)?)
    }

    /// Lets those calls of a device fail that were ordered to; of the device after it none do.
    fn faulty(&mut self, device: CachedDevice) -> FaultDevice<CachedDevice> {
        let call = self.fault;
        self.fault = 0;
        FaultDevice::new(device, call, self.rest)
    }

    /// Makes a kernel on a file that was made or opened.
    fn begin(
        &mut self,
        alloc: Global,
        outcome: Opened<CachedDevice>,
    ) -> Result<Answer, AllocError> {
        match outcome {
            Ok(file) => match Kernel::new(alloc, self.region.max(LEAST).min(MOST), file) {
                Ok(kernel) => self.stand.put(Stand::Kernel(kernel)),
                Err((_, error)) => return Err(error),
            },
            failed => return Ok(self.stand.keep(failed)),
        }
        Ok(Answer::Done)
    }

    /// Lets the kernel go, and keeps its device.
    fn close(&mut self) -> Answer {
        if let Stand::Kernel(_) = &self.stand
            && let Some(device) = self.stand.take()
        {
            self.stand.put(Stand::Device(device));
            return Answer::Done;
        }
        Answer::NotAsked(NO_KERNEL)
    }

    /// Puts a device in the place of the one that is there, with what a stop leaves of it.
    fn power_off(&mut self, alloc: Global, line: &Line<'_>) -> Result<Answer, AllocError> {
        let Some(device) = self.stand.take() else {
            return Ok(Answer::NotAsked(NO_DEVICE));
        };
        let left = device.into_inner().after_stop(&parts_of(line))?;
        let mut device = CachedDevice::new(alloc, left.len() as u64)?;
        // It is as long as the bytes, so that it fails only where there is no memory.
        if device.write_at(0, &left).is_err() || device.sync().is_err() {
            return Err(AllocError);
        }
        self.stand.put(Stand::new(device, 0, false));
        Ok(Answer::Done)
    }

    /// Tells of a device that no kernel has.
    fn on_device(&mut self, alloc: Global, word: &str) -> Result<Answer, AllocError> {
        match &self.stand {
            Stand::Device(device) if word == "calls" => return told(alloc, device.calls()),
            Stand::Device(_) => {}
            _ => return Ok(Answer::NotAsked(NO_DEVICE)),
        }
        let Some(device) = self.stand.take() else {
            return Ok(Answer::NotAsked(NO_DEVICE));
        };
        match opened(alloc, FaultDevice::new(device.into_inner(), 0, false))? {
            Ok(mut file) => {
                let text = kept(alloc, &mut file, word == "kept_bytes")?;
                self.stand.put(Stand::Device(file.into_device()));
                Ok(Answer::Text(text))
            }
            failed => Ok(self.stand.keep(failed)),
        }
    }
}

/// Makes the call of a line on the kernel.
fn on_kernel<D: Device + Drop>(
    alloc: Global,
    kernel: &mut Kernel<D>,
    routines: &mut Routines,
    line: &Line<'_>,
) -> Result<Answer, AllocError> {
    match line.word {
        "fill" => fill(alloc, kernel, line),
        "bytes" | "vm_bytes" => bytes(alloc, kernel, line),
        "igetmap" => {
            let (group, item) = kernel.igetmap();
            text(format!(in alloc; "{group} {item}"))
        }
        "state" | "contents" => state(alloc, kernel, line.word == "contents"),
        "call" => {
            let [routine, w0, w1, w2, w3, w4, w5, w6] = line.words();
            routines.call(alloc, kernel, routine, &[w0, w1, w2, w3, w4, w5, w6, 0])
        }
        _ => Ok(call(kernel, line)),
    }
}
