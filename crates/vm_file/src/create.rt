//! What a new file begins with.
ghost use Rattle.std.specs.Prelude.{◌≡◌, ◌+◌, ◌*◌, OnOk};
ghost use Rattle.lmem_raw.specs.Bytes.{with_part};
ghost use Rattle.vm_file.specs.Device.{Only};
ghost use Rattle.vm_file.specs.Outcomes.{CausesDisk, WritesOnly};
ghost use Rattle.vm_file.specs.Spelling.{new_file};

use crate::device::{Device, Disk, write_durably};

/// The first 1,040 bytes of a new file: header, selector, and two empty directories in the
/// first area.
fn new_file(area: u32) -> [u8; 1040]
    ensures { result ≡ new_file area }
{
    let mut bytes = [0; 1040];
    bytes[0] = b'G';
    bytes[1] = b'V';
    bytes[2] = b'M';
    bytes[3] = b'1';
    bytes[4] = 1;
    bytes[8] = (area % 256) as u8;
    bytes[9] = (area / 256 % 256) as u8;
    bytes[10] = (area / 65536 % 256) as u8;
    bytes[11] = (area / 16_777_216) as u8;
    bytes
}

/// The length of a device for a file with areas of this size: header, selector and two areas.
pub fn device_length(area: u32) -> u64
    ensures { result ≡ 1024 + 2 * area }
{
    1024 + 2 * u64::from(area)
}

/// Writes what a new file begins with, and makes it last.
pub(crate) fn write_new<D: Device>(device: &mut D, area: u32) -> Result<(), Disk>
    ensures bytes { D.medium.honest device.old → OnOk result (D.medium.image device.new ≡ with_part (D.medium.image device.old) 0 (new_file area)) }
    ensures writes { WritesOnly D.medium 0 1040 device.old device.new }
    ensures durable { D.medium.honest device.old → OnOk result (Only (D.medium.image device.new) (D.medium.may_leave device.new)) }
    ensures cause { CausesDisk (D.medium.failed device.old) (D.medium.failed device.new) result }
{
    let bytes = new_file(area);
    write_durably(device, 0, &bytes)
}
