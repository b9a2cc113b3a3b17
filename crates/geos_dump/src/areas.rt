//! The areas of a file.

ghost use Rattle.std.specs.Prelude.{◌≡◌, ◌+◌, ◌*◌, IfOk, slice_index};
ghost use Rattle.geos_terms.specs.Bytes.{word};
ghost use Rattle.vm_file.specs.Outcomes.{CausesDisk, ReadsOnly};
ghost use Rattle.vm_file.specs.Reading.{is_second};

use vm_file::{Device, Disk};

/// The two areas of a file.
#[derive(Clone, Copy)]
pub struct Areas {
    /// The size of each, in bytes.
    pub size: u32,
    /// Whether the second one is read.
    pub second: bool,
}

/// Reads what the header and the selector of a file say of its areas; whether the device holds a
/// file, `VmFile::open` tells. `Disk` if the device fails, as it does past its length.
pub fn read_areas<D: Device>(device: &mut D) -> Result<Areas, Disk>
    ensures size { D.medium.honest device.old
        → IfOk result (λ areas. areas.size ≡ word (D.medium.image device.old) 8 + 65536 * word (D.medium.image device.old) 10) }
    ensures second { D.medium.honest device.old → IfOk result (λ areas. areas.second ≡ is_second (slice_index (D.medium.image device.old) 512)) }
    ensures reads { ReadsOnly D.medium device.old device.new }
    ensures cause { CausesDisk (D.medium.failed device.old) (D.medium.failed device.new) result }
{
    let mut size = [0u8; 4];
    let mut selector = [0u8; 1];
    match device.read_at(8, &mut size) {
        Ok(()) => {}
        Err(Disk) => return Err(Disk),
    }
    match device.read_at(512, &mut selector) {
        Ok(()) => {}
        Err(Disk) => return Err(Disk),
    }
    Ok(Areas {
        size: u32::from_le_bytes(size),
        second: selector[0] % 2 == 1,
    })
}
