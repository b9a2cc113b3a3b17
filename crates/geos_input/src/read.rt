//! All that a stream gives, up to a limit.

ghost use Rattle.std.specs.Prelude.{◌≡◌, ◌≤◌, ◌+◌, length, IfOk, IfErr};
ghost use Rattle.vm_file.specs.Device.{Rose};
ghost use Rattle.geos_input.specs.declared.fault.ScriptFault.TheVariants.{Read};
ghost use Rattle.geos_input.specs.Fault.{KeptUnless};
ghost use Rattle.geos_text.specs.Words.{most_bytes};
ghost use Rattle.geos_input.specs.Reading.{Reads, EndsReading};

use crate::counted::Counted;
use crate::fault::ScriptFault;
use geos_text::MOST_BYTES;
use std::alloc::Global;
use std::io::Read;

/// The most bytes of one read.
const CHUNK: usize = 4096;

/// All that the reader gives, at most `MOST_BYTES`. Each call gives a byte at least, or is the
/// last: so the reader is called at most `MOST_BYTES` + 1 times.
pub fn read_all<R: Read>(alloc: Global, input: &mut Counted<R>) -> Result<Vec<u8>, ScriptFault>
    ensures whole { IfOk result (λ bytes. Reads (R.remaining input.old.stream) (R.remaining input.new.stream) bytes.items) }
    ensures short { IfOk result (λ bytes. length bytes.items ≤ most_bytes) }
    ensures fault { IfErr result (EndsReading (R.remaining input.old.stream) (R.remaining input.new.stream)) }
    ensures reader_failed { IfErr result (λ fault. fault ≡ Read → Rose input.old.failures input.new.failures) }
    ensures reader_kept { KeptUnless Read result input.old.failures input.new.failures }
    ensures asked { input.new.asked ≤ input.old.asked + most_bytes + 1 }
{
    let mut bytes = Vec::new(alloc);
    let mut chunk = [0; CHUNK];
    for _ in 0..=MOST_BYTES {
        let room = (MOST_BYTES + 1 - bytes.len()).min(CHUNK);
        let count = match input.read(&mut chunk[..room]) {
            Ok(count) => count,
            Err(_) => return Err(ScriptFault::Read),
        };
        if count == 0 {
            return Ok(bytes);
        }
        bytes.extend_from_slice(&chunk[..count])?;
        if bytes.len() > MOST_BYTES {
            return Err(ScriptFault::TooLong);
        }
    }
    Err(ScriptFault::TooLong)
}
