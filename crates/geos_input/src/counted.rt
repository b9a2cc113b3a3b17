//! Streams that count their calls.

ghost use Rattle.std.specs.Prelude.{◌≡◌, true, false, OnOk, OnErr, MatchBool, MatchResult};
ghost use Rattle.std.specs.Io.{ReadsAtMost, WritesAtMost};
ghost use Rattle.std.specs.Io.KnownBytes.{Appends, Keeps, ReadConsumes, WriteAppends};
ghost use Rattle.vm_file.specs.Device.{one_more};
ghost use Rattle.geos_input.specs.Counted.{AppendsPart};

use std::io;
use std::io::{ErrorKind, Read, Write};

/// A stream that counts its calls, and how many of them failed. A count stays at its greatest
/// value.
#[derive(Drop)]
pub struct Counted<S> {
    pub stream: S,
    /// How many calls there were.
    pub asked: u64,
    /// How many of them failed.
    pub failures: u64,
    /// Whether the last of them was a flush that did not fail.
    pub flushed: bool,
}

impl<S> Counted<S> {
    /// The stream, with no call counted yet.
    pub fn new(stream: S) -> Counted<S>
        ensures stream { result.stream ≡ stream }
        ensures asked { result.asked ≡ 0 }
        ensures failures { result.failures ≡ 0 }
        ensures flushed { result.flushed ≡ false }
    {
        Counted {
            stream,
            asked: 0,
            failures: 0,
            flushed: false,
        }
    }

    /// Counts a call that is no flush.
    fn count(&mut self, failed: bool)
        ensures stream { self.new.stream ≡ self.old.stream }
        ensures flushed { self.new.flushed ≡ false }
        ensures asked { self.new.asked ≡ one_more self.old.asked }
        ensures failures { MatchBool failed (self.new.failures ≡ one_more self.old.failures) (self.new.failures ≡ self.old.failures) }
    {
        self.flushed = false;
        self.asked = self.asked.saturating_add(1);
        if failed {
            self.failures = self.failures.saturating_add(1);
        }
    }
}

impl<R: Read> Read for Counted<R> {
    ghost remaining = { λ c. R.remaining c.stream };

    fn read(&mut self, into: &mut [u8]) -> io::Result<usize>
        ensures bound { ReadsAtMost result into.new }
        ensures bytes { ReadConsumes (R.remaining self.old.stream) (R.remaining self.new.stream) result into.new }
        ensures flushed { self.new.flushed ≡ false }
        ensures asked { self.new.asked ≡ one_more self.old.asked }
        ensures failed { OnErr result (self.new.failures ≡ one_more self.old.failures) }
        ensures kept { OnOk result (self.new.failures ≡ self.old.failures) }
    {
        let result = self.stream.read(into);
        self.count(result.is_err());
        result
    }
}

/// Writes the bytes by as many writes as that takes. The first that fails, be it interrupted,
/// or that takes no byte, is the last. Std's `write_all` tries an interrupted one again, and
/// does not promise what it leaves where it fails.
fn write_whole<W: Write>(stream: &mut W, bytes: &[u8]) -> io::Result<()>
    ensures bytes { OnOk result (Appends (W.contents stream.old) (W.contents stream.new) bytes.now) }
    ensures part { OnErr result (AppendsPart (W.contents stream.old) (W.contents stream.new) bytes.now) }
{
    let mut rest = bytes;
    while !rest.is_empty() {
        match stream.write(rest) {
            Ok(0) => return Err(io::Error::from(ErrorKind::WriteZero)),
            Ok(count) => rest = &rest[count..],
            Err(error) => return Err(error),
        }
    }
    Ok(())
}

impl<W: Write> Write for Counted<W> {
    ghost contents = { λ c. W.contents c.stream };

    fn write(&mut self, bytes: &[u8]) -> io::Result<usize>
        ensures bound { WritesAtMost result bytes.now }
        ensures bytes { WriteAppends (W.contents self.old.stream) (W.contents self.new.stream) result bytes.now }
        ensures flushed { self.new.flushed ≡ false }
        ensures asked { self.new.asked ≡ one_more self.old.asked }
        ensures failed { OnErr result (self.new.failures ≡ one_more self.old.failures) }
        ensures kept { OnOk result (self.new.failures ≡ self.old.failures) }
    {
        let result = self.stream.write(bytes);
        self.count(result.is_err());
        result
    }

    fn flush(&mut self) -> io::Result<()>
        ensures bytes { Keeps (W.contents self.old.stream) (W.contents self.new.stream) }
        ensures flushed { MatchResult result (λ _. self.new.flushed ≡ true) (λ _. self.new.flushed ≡ false) }
        ensures asked { self.new.asked ≡ one_more self.old.asked }
        ensures failed { OnErr result (self.new.failures ≡ one_more self.old.failures) }
        ensures kept { OnOk result (self.new.failures ≡ self.old.failures) }
    {
        let result = self.stream.flush();
        self.count(result.is_err());
        self.flushed = result.is_ok();
        result
    }

    fn write_all(&mut self, bytes: &[u8]) -> io::Result<()>
        ensures bytes { OnOk result (Appends (W.contents self.old.stream) (W.contents self.new.stream) bytes.now) }
        ensures part { OnErr result (AppendsPart (W.contents self.old.stream) (W.contents self.new.stream) bytes.now) }
        ensures flushed { self.new.flushed ≡ false }
        ensures asked { self.new.asked ≡ one_more self.old.asked }
        ensures failed { OnErr result (self.new.failures ≡ one_more self.old.failures) }
        ensures kept { OnOk result (self.new.failures ≡ self.old.failures) }
    {
        let result = write_whole(&mut self.stream, bytes);
        self.count(result.is_err());
        result
    }
}
