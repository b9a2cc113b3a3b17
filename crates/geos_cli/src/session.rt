//! Sessions: an image in hexadecimal digits, a line `end`, and a script.

ghost use Rattle.std.specs.Prelude.{◌≡◌, ◌≢◌, ◌≤◌, ◌<◌, ◌+◌, true, length, IfOk, IfErr};
ghost use Rattle.std.specs.Io.KnownBytes.{Keeps};
ghost use Rattle.geos_input.specs.declared.fault.ScriptFault.TheVariants.{Read, Write};
ghost use Rattle.vm_file.specs.Device.{Rose};
ghost use Rattle.geos_input.specs.Fault.{KeptUnless};
ghost use Rattle.geos_text.specs.Words.{most_bytes};
ghost use Rattle.geos_input.specs.Reading.{Reads};
ghost use Rattle.geos_cli.specs.Session.{RanBytes, StoppedBytes, EndsBytes, RanSession, StoppedSession, EndsSession};

use crate::script::run_script;
use geos_input::{Counted, ScriptFault, image_and_script, read_all};
use geos_kernel::kernel_in_memory;
use script_commands::flush;
use std::alloc::Global;
use std::io::{Read, Write};

/// How many bytes the region of a session's memory blocks has.
const REGION: u32 = 65_536;

/// Runs the session that the bytes are, and flushes the writer.
fn run_bytes<W: Write>(alloc: Global, bytes: &[u8], out: &mut Counted<W>) -> Result<(), ScriptFault>
    requires { length bytes.now ≤ most_bytes }
    ensures ran { IfOk result (λ _. RanBytes bytes.now (W.contents out.old.stream) (W.contents out.new.stream)) }
    ensures flushed { IfOk result (λ _. out.new.flushed ≡ true) }
    ensures due { IfErr result (EndsBytes bytes.now) }
    ensures stopped { IfErr result (λ fault. fault ≡ Write → StoppedBytes bytes.now (W.contents out.old.stream) (W.contents out.new.stream)) }
    ensures nothing_written { IfErr result (λ fault. fault ≢ Write → Keeps (W.contents out.old.stream) (W.contents out.new.stream)) }
    ensures not_asked { IfErr result (λ fault. fault ≢ Write → out.new.asked ≡ out.old.asked) }
    ensures writer_failed { IfErr result (λ fault. fault ≡ Write → Rose out.old.failures out.new.failures) }
    ensures writer_kept { KeptUnless Write result out.old.failures out.new.failures }
{
    let (image, script) = image_and_script(alloc, bytes)?;
    let mut kernel = kernel_in_memory(alloc, REGION)?;
    match run_script(alloc, &image, script, &mut kernel, out) {
        Ok(()) => flush(out),
        Err(fault) => Err(fault),
    }
}

/// Reads a session to its end, runs it, and flushes the writer: an image in hexadecimal
/// digits, a line `end`, and a script as of `run_script`. It begins with no memory block, in a
/// region of 65,536 bytes, and on a new VM file in memory: so no command is refused 11.
///
/// Returns the first of these faults: `TooLong` if there are more than 1,048,576 bytes; `BadHex`; then those of `run_script`. `Read` if the
/// reader failed, which is called at most 1,048,577 times. `Write` if the writer failed, as in `run_script`, or if the flush after the last
/// command failed: then the writer got all that the commands print. If neither is returned, no call of the reader or the writer failed.
pub fn run_session<R: Read, W: Write>(
    alloc: Global,
    input: &mut Counted<R>,
    out: &mut Counted<W>,
) -> Result<(), ScriptFault>
    ensures ran { IfOk result (λ _.
        RanSession (R.remaining input.old.stream) (R.remaining input.new.stream) (W.contents out.old.stream) (W.contents out.new.stream)) }
    ensures flushed { IfOk result (λ _. out.new.flushed ≡ true) }
    ensures due { IfErr result (EndsSession (R.remaining input.old.stream) (R.remaining input.new.stream)) }
    ensures stopped { IfErr result (λ fault. fault ≡ Write →
        StoppedSession (R.remaining input.old.stream) (R.remaining input.new.stream) (W.contents out.old.stream) (W.contents out.new.stream)) }

    // The writer is not used before the first call, and it failed exactly if `Write` is returned.
    ensures nothing_written { IfErr result (λ fault. fault ≢ Write → Keeps (W.contents out.old.stream) (W.contents out.new.stream)) }
    ensures not_asked { IfErr result (λ fault. fault ≢ Write → out.new.asked ≡ out.old.asked) }
    ensures writer_failed { IfErr result (λ fault. fault ≡ Write → Rose out.old.failures out.new.failures) }
    ensures writer_kept { KeptUnless Write result out.old.failures out.new.failures }

    // The reader: it failed exactly if `Read` is answered.
    ensures reader_failed { IfErr result (λ fault. fault ≡ Read → Rose input.old.failures input.new.failures) }
    ensures reader_kept { KeptUnless Read result input.old.failures input.new.failures }
    ensures asked { input.new.asked ≤ input.old.asked + most_bytes + 1 }
{
    let bytes = read_all(alloc, input)?;
    run_bytes(alloc, &bytes, out)
}
