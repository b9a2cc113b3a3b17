//! VM files are copied.

ghost use Rattle.std.specs.Prelude.{IfSome};
ghost use Rattle.geos_shell.specs.Limits.{IsArea};

use crate::fault::FileFault;
use crate::files::{Locked, finished, lock_to_read, opened, sized};
use geos_dump::{CopyError, DumpError, Side, copy, read_areas};
use geos_shell::{CopyRequest, FileLock, NewFile};
use std::fs::File;
use vm_file::{CreateError, FileDevice, VmFile};

/// What areas have a multiple of.
const UNIT: u64 = 512;

/// The most bytes of an area.
const MOST: u64 = 16_777_216;

/// A VM file that is copied.
#[derive(Drop)]
struct Original<'a> {
    file: VmFile<FileDevice>,
    /// How many bytes each of its areas has.
    area: u32,
    lock: FileLock<'a>,
}

/// What a copy gets.
#[derive(Clone, Copy)]
struct Plan {
    /// How many bytes each of its areas has.
    area: u32,
    /// The directory that is its current one.
    side: Side,
}

/// Opens a VM file under its lock, and reads the size of its areas.
fn opened_original<'a>(rt: &HostRuntime, path: &'a str) -> Result<Original<'a>, FileFault<'a>> {
    let Locked { mut device, lock } = lock_to_read(rt, path)?;
    let areas = read_areas(&mut device);
    // If the areas were not read, it may be no VM file: that is reported first.
    let file = opened(rt, path, device)?;
    let areas = areas.map_err(DumpError::from)?;
    Ok(Original {
        file,
        area: areas.size,
        lock,
    })
}

/// The fault of blocks that take so many bytes, more than an area has.
fn too_big<'a>(needed: u32) -> FileFault<'a> {
    let least = u64::from(needed).div_ceil(UNIT) * UNIT;
    if least <= MOST {
        FileFault::AreaTooSmall(least)
    } else {
        FileFault::NoArea
    }
}

/// Copies an open VM file into a new file, which is empty so far.
fn fill_copy<'a>(
    rt: &HostRuntime,
    path: &'a str,
    new: File,
    file: &mut VmFile<FileDevice>,
    plan: Plan,
) -> Result<(), FileFault<'a>> {
    let device = sized(path, new, plan.area)?;
    match copy(rt.alloc(), file, device, plan.area, plan.side) {
        Ok(_copy) => Ok(()),
        Err(CopyError::TooBig(needed)) => Err(too_big(needed)),
        Err(CopyError::Memory) => Err(FileFault::Create(CreateError::Memory)),
        Err(CopyError::Disk) => Err(FileFault::Create(CreateError::Disk)),
    }
}

/// Copies a VM file to a new file, as `make_file` makes it. Nobody changes the old file meanwhile.
///
/// `FileFault::AreaTooSmall` and `FileFault::NoArea` if the new areas have no room, otherwise the faults of `opened` and of `make_file`.
pub fn copy_file<'a>(rt: &HostRuntime, paths: &CopyRequest<'a>) -> Result<(), FileFault<'a>>
    requires { IfSome paths.now.area IsArea }
{
    let Original {
        mut file,
        area,
        lock: _lock,
    } = opened_original(rt, paths.file)?;
    let plan = Plan {
        area: paths.area.unwrap_or(area),
        side: if paths.saved {
            Side::Saved
        } else {
            Side::Current
        },
    };
    let part = NewFile::begin(rt, paths.new)?;
    let filled = match part.file() {
        Ok(empty) => fill_copy(rt, paths.new, empty, &mut file, plan),
        Err(fault) => Err(FileFault::Stream(fault)),
    };
    finished(rt, part, filled)
}
