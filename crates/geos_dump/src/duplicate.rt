//! A copy is made.

ghost use Rattle.std.specs.Prelude.{◌≡◌, ◌+◌, ◌*◌, Ok, IfOk, OnOk, length};
ghost use Rattle.geos_dump.specs.Sides.{IsOnlyRead};
ghost use Rattle.geos_terms.specs.Bytes.{word};
ghost use Rattle.vm_file.specs.Contents.{pair_length};
ghost use Rattle.vm_file.specs.Device.{Only};
ghost use Rattle.vm_file.specs.Reading.{found};
ghost use Rattle.vm_file.specs.State.{pair_of};
ghost use Rattle.geos_dump.specs.Copies.{AnswersFit, copied};

use crate::areas::read_areas;
use crate::compare::is_copy;
use crate::copy_error::{CopyError, Fault};
use crate::lengths::copy_length;
use crate::sides::Side;
use crate::spelling::spelled;
use std::alloc::Global;
use vm_file::{Device, Disk, OpenError, VmFile};

/// The fault for a copy that could not be opened after it was written.
fn fault_of(error: OpenError) -> Fault {
    match error {
        OpenError::Memory => Fault::Memory,
        OpenError::BadFile(_) | OpenError::Disk => Fault::Disk,
    }
}

/// Writes the bytes of a copy to the front of its device. `Disk` if the device fails, or names another area size than this one then.
fn put_on<E: Device>(device: &mut E, bytes: &[u8], area: u32) -> Result<(), Disk>
    ensures size { E.medium.honest device.old
        → OnOk result (word (E.medium.image device.new) 8 + 65536 * word (E.medium.image device.new) 10 ≡ area) }
    ensures stays { E.medium.honest device.old → E.medium.honest device.new }
    ensures long { length (E.medium.image device.new) ≡ length (E.medium.image device.old) }
{
    match device.write_at(0, bytes) {
        Ok(()) => {}
        Err(Disk) => return Err(Disk),
    }
    match read_areas(device) {
        Ok(areas) if areas.size == area => Ok(()),
        Ok(_) | Err(Disk) => Err(Disk),
    }
}

/// Writes a copy to a device, opens it, and compares it with the file.
#[tactic(auto, using(crate::proofs::Equal::found_same, crate::proofs::Equal::only_then))]
fn made<D: Device + Drop, E: Device + Drop>(
    alloc: Global,
    file: &mut VmFile<D>,
    mut device: E,
    area: u32,
    side: Side,
) -> Result<VmFile<E>, Fault>
    ensures finds { D.medium.honest file.old.device → E.medium.honest device → IfOk result
        (λ copy. found (E.medium.image copy.device) ≡ Ok (copied side (pair_of D.medium.image file.old))) }
    ensures durable { E.medium.honest device → IfOk result (λ copy. Only (E.medium.image copy.device) (E.medium.may_leave copy.device)) }
    ensures size { E.medium.honest device → IfOk result (λ copy. copy.area ≡ area) }
    ensures long { IfOk result (λ copy. length (E.medium.image copy.device) ≡ length (E.medium.image device)) }
    ensures only_read { IsOnlyRead D.medium file.old file.new }
{
    let bytes = match spelled(alloc, file, area, side) {
        Ok(bytes) => bytes,
        Err(fault) => return Err(fault),
    };
    match put_on(&mut device, &bytes, area) {
        Ok(()) => {}
        Err(Disk) => return Err(Fault::Disk),
    }
    let mut copy = match VmFile::open(alloc, device) {
        Ok(copy) => copy,
        Err((_device, error)) => return Err(fault_of(error)),
    };
    match is_copy(alloc, file, &mut copy, side) {
        Ok(true) => Ok(copy),
        Ok(false) => Err(Fault::Disk),
        Err(fault) => Err(fault),
    }
}

/// Copies a file to a device that has `vm_file::device_length(area)` bytes, all zeros. `area` is a legal area size. The copy has the saved
/// directory of the file, and as its current directory the one on a side, with their blocks, handles, user IDs and maps. It is written
/// to the first area, and made to last.
///
/// The copy is then opened, and compared with the file. So if both devices are honest, `Ok` says that opening the copy finds exactly this
/// pair, and areas of this size. The device keeps its length. The file is only read.
///
/// `TooBig` exactly if the pair is longer than the area: nothing is written then. `Memory` if an allocation is refused. `Disk` if a device
/// fails, or does not return what was written.
pub fn copy<D: Device + Drop, E: Device + Drop>(
    alloc: Global,
    file: &mut VmFile<D>,
    device: E,
    area: u32,
    side: Side,
) -> Result<VmFile<E>, CopyError>
    ensures finds { D.medium.honest file.old.device → E.medium.honest device → IfOk result
        (λ copy. found (E.medium.image copy.device) ≡ Ok (copied side (pair_of D.medium.image file.old))) }
    ensures durable { E.medium.honest device → IfOk result (λ copy. Only (E.medium.image copy.device) (E.medium.may_leave copy.device)) }
    ensures size { E.medium.honest device → IfOk result (λ copy. copy.area ≡ area) }
    ensures long { IfOk result (λ copy. length (E.medium.image copy.device) ≡ length (E.medium.image device)) }
    ensures fits { AnswersFit result (pair_length (copied side (pair_of D.medium.image file.old))) area }
    ensures only_read { IsOnlyRead D.medium file.old file.new }
{
    let needed = copy_length(file, side);
    if area < needed {
        return Err(CopyError::TooBig(needed));
    }
    match made(alloc, file, device, area, side) {
        Ok(copy) => Ok(copy),
        Err(Fault::Memory) => Err(CopyError::Memory),
        Err(Fault::Disk) => Err(CopyError::Disk),
    }
}
