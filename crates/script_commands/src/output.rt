//! What commands print, and when the writer is flushed.

ghost use Rattle.std.specs.Prelude.{◌≡◌, ◌||◌, true, false, IfOk, IfErr, Err};
ghost use Rattle.std.specs.Io.KnownBytes.{Appends, Keeps};
ghost use Rattle.geos_input.specs.declared.fault.ScriptFault.TheVariants.{Write};
ghost use Rattle.vm_file.specs.Device.{Rose};
ghost use Rattle.geos_input.specs.Counted.{AppendsPart};
ghost use Rattle.script_commands.specs.Outputs.{IsGiven};
ghost use Rattle.script_commands.specs.Outputs.{printed, committed};

use geos_input::{Counted, ScriptFault};
use geos_terms::Refusal;
use std::io::Write;

/// Writes the bytes.
pub fn write<W: Write>(out: &mut Counted<W>, bytes: &[u8]) -> Result<(), ScriptFault>
    ensures ok { IfOk result (λ _. Appends (W.contents out.old.stream) (W.contents out.new.stream) bytes.now) }
    ensures part { IfErr result (λ _. AppendsPart (W.contents out.old.stream) (W.contents out.new.stream) bytes.now) }
    ensures kept { IfOk result (λ _. out.new.failures ≡ out.old.failures) }
    ensures failed { IfErr result (λ fault. (fault ≡ Write) × Rose out.old.failures out.new.failures) }
{
    match out.write_all(bytes) {
        Ok(()) => Ok(()),
        Err(_) => Err(ScriptFault::Write),
    }
}

/// Prints each word in decimal on a line.
pub fn print<W: Write>(words: &[u16], out: &mut Counted<W>) -> Result<(), ScriptFault>
    ensures ok { IfOk result (λ _. Appends (W.contents out.old.stream) (W.contents out.new.stream) (printed words.now)) }
    ensures part { IfErr result (λ _. AppendsPart (W.contents out.old.stream) (W.contents out.new.stream) (printed words.now)) }
    ensures kept { IfOk result (λ _. out.new.failures ≡ out.old.failures) }
    ensures failed { IfErr result (λ fault. (fault ≡ Write) × Rose out.old.failures out.new.failures) }
{
    let mut digits = itoa::Buffer::new();
    for word in words {
        write(out, digits.format(*word).as_bytes())?;
        write(out, b"\n")?;
    }
    Ok(())
}

/// Prints the number of a refusal, on a line.
pub fn print_refusal<W: Write>(refusal: Refusal, out: &mut Counted<W>) -> Result<(), ScriptFault>
    ensures ok { IfOk result (λ _. Appends (W.contents out.old.stream) (W.contents out.new.stream) (committed (Err refusal))) }
    ensures part { IfErr result (λ _. AppendsPart (W.contents out.old.stream) (W.contents out.new.stream) (committed (Err refusal))) }
    ensures kept { IfOk result (λ _. out.new.failures ≡ out.old.failures) }
    ensures failed { IfErr result (λ fault. (fault ≡ Write) × Rose out.old.failures out.new.failures) }
{
    let mut digits = itoa::Buffer::new();
    write(out, b"refused ")?;
    write(out, digits.format(refusal.number()).as_bytes())?;
    write(out, b"\n")
}

/// Flushes the writer.
pub fn flush<W: Write>(out: &mut Counted<W>) -> Result<(), ScriptFault>
    ensures bytes { Keeps (W.contents out.old.stream) (W.contents out.new.stream) }
    ensures flushed { IfOk result (λ _. out.new.flushed ≡ true) }
    ensures kept { IfOk result (λ _. out.new.failures ≡ out.old.failures) }
    ensures failed { IfErr result (λ fault. (fault ≡ Write) × Rose out.old.failures out.new.failures) }
{
    match out.flush() {
        Ok(()) => Ok(()),
        Err(_) => Err(ScriptFault::Write),
    }
}

/// Flushes the writer, unless it was not used since the last flush, or ever.
pub fn give<W: Write>(out: &mut Counted<W>) -> Result<(), ScriptFault>
    ensures bytes { Keeps (W.contents out.old.stream) (W.contents out.new.stream) }
    ensures given { IfOk result (λ _. IsGiven out.new.asked out.new.flushed) }
    ensures idle { IsGiven out.old.asked out.old.flushed → out.new ≡ out.old }
    ensures kept { IfOk result (λ _. out.new.failures ≡ out.old.failures) }
    ensures failed { IfErr result (λ fault. (fault ≡ Write) × Rose out.old.failures out.new.failures) }
{
    if out.asked == 0 || out.flushed {
        return Ok(());
    }
    flush(out)
}

/// Flushes the output before a command that may commit (`ahead`), or after one that may have (`behind`).
pub fn give_before<W: Write>(
    behind: bool,
    ahead: bool,
    out: &mut Counted<W>,
) -> Result<(), ScriptFault>
    ensures bytes { Keeps (W.contents out.old.stream) (W.contents out.new.stream) }
    ensures given { IfOk result (λ _. (behind || ahead) ≡ true → IsGiven out.new.asked out.new.flushed) }
    ensures idle { (behind || ahead) ≡ false → out.new ≡ out.old }
    ensures due { IfErr result (λ _. (behind || ahead) ≡ true) }
    ensures kept { IfOk result (λ _. out.new.failures ≡ out.old.failures) }
    ensures failed { IfErr result (λ fault. (fault ≡ Write) × Rose out.old.failures out.new.failures) }
{
    if behind || ahead { give(out) } else { Ok(()) }
}
