//! Whether a file is legal.

ghost use Rattle.std.specs.Prelude.{◌≡◌, ℕ, Result, Err, IfErr, OnOk};
ghost use Rattle.vm_file.specs.Outcomes.{IsRefused};
ghost use Rattle.vm_file.specs.Reading.{File, file_at};
ghost use Rattle.file_checks.specs.Sound.{IsSound};

use crate::areas::put_area_faults;
use crate::header::{HEADER, put_header_faults};
use crate::report::Report;
use geos_text::Part;
use std::alloc::Global;
use vm_file::{Device, Disk, OpenError, VmFile};

/// Why a file is not known to be sound.
#[derive(Drop)]
pub struct Unsound {
    /// Why it was not opened.
    pub error: OpenError,
    /// A line for each fault, of `OpenError::BadFile`: the first 1,000, and then how many more there are. It has a line at least.
    pub lines: Vec<u8>,
}

/// Reads the selected area, of this size, and reports its faults. `Disk` if the device fails, `Memory` if an allocation is refused.
fn report_area<D: Device>(
    alloc: Global,
    device: &mut D,
    report: &mut Report,
    base: u64,
    size: u32,
) -> Result<(), OpenError>
    ensures { (read : Result File ℕ) → IfErr result (λ e. IsRefused e read) }
{
    let len = device.len();
    if len <= base {
        report.put(Part::Text("its selected area lies past its end"), &[]);
        return Ok(());
    }
    let there = (len - base).min(u64::from(size)) as usize;
    let Ok(mut bytes) = Vec::from_elem(alloc, 0u8, there) else {
        return Err(OpenError::Memory);
    };
    match device.read_at(base, &mut bytes) {
        Ok(()) => {}
        Err(Disk) => return Err(OpenError::Disk),
    }
    put_area_faults(report, &bytes);
    Ok(())
}

/// Reads a file that is not legal, and reports its faults. Its errors are those of `report_area`.
fn report_file<D: Device>(
    alloc: Global,
    device: &mut D,
    report: &mut Report,
) -> Result<(), OpenError>
    ensures { (read : Result File ℕ) → IfErr result (λ e. IsRefused e read) }
{
    let mut header = [0u8; HEADER];
    if device.len() < HEADER as u64 {
        report.put(Part::Text("it ends within its header"), &[]);
        return Ok(());
    }
    match device.read_at(0, &mut header) {
        Ok(()) => {}
        Err(Disk) => return Err(OpenError::Disk),
    }
    let Some(size) = put_header_faults(report, &header) else {
        return Ok(());
    };
    let base = if header[512] % 2 == 1 {
        1_024 + u64::from(size)
    } else {
        1_024
    };
    report_area(alloc, device, report, base, size)
}

/// The lines on a file whose first fault is at an offset. Its errors are those of `report_area`.
fn lines_of<D: Device>(alloc: Global, device: &mut D, at: u64) -> Result<Vec<u8>, OpenError>
    ensures { (read : Result File ℕ) → IfErr result (λ e. IsRefused e read) }
{
    let mut report = Report::new(alloc);
    match report_file(alloc, device, &mut report) {
        Ok(()) => {}
        Err(error) => return Err(error),
    }
    if report.faults() == 0 {
        report.put(Part::Numbered("its first fault is at ", at), &[]);
    }
    match report.finish() {
        Ok(lines) => Ok(lines),
        Err(_) => Err(OpenError::Memory),
    }
}

/// The report for a file whose first fault is at an offset.
fn faulty<D: Device + Drop>(alloc: Global, mut device: D, at: u64) -> Unsound
    ensures { (read : Result File ℕ) → read ≡ Err at → IsRefused result.error read }
{
    match lines_of(alloc, &mut device, at) {
        Ok(lines) => Unsound {
            error: OpenError::BadFile(at),
            lines,
        },
        Err(error) => Unsound {
            error,
            lines: Vec::new(alloc),
        },
    }
}

/// Reads all of a file: header, selector, and both directories of the selected area with their blocks. `Ok` only if it is legal: `VmFile`
/// opens it, and each block of the current and the saved directory is a heap under its handle. Nothing is written.
///
/// `OpenError::BadFile` names the first fault, with lines for all. After a fault that hides where the next block begins, no more are found.
/// `OpenError::Disk` if the device fails, `OpenError::Memory` if an allocation is refused: then it is not known whether the file is legal.
pub fn check<D: Device + Drop>(alloc: Global, device: D) -> Result<(), Unsound>
    ensures sound { D.medium.honest device → OnOk result (IsSound (D.medium.image device)) }
    ensures faulty { D.medium.honest device → IfErr result (λ u. IsRefused u.error (file_at (D.medium.image device))) }
{
    match VmFile::open(alloc, device) {
        Ok(_file) => Ok(()),
        Err((device, error)) => match error {
            OpenError::BadFile(at) => Err(faulty(alloc, device, at)),
            OpenError::Disk | OpenError::Memory => Err(Unsound {
                error,
                lines: Vec::new(alloc),
            }),
        },
    }
}
