//! Scripts that are tested.

ghost use Rattle.std.specs.Prelude.{◌≡◌, IfOk};
ghost use Rattle.script_tests.specs.Expected.{expecting, expecting_of};

use crate::lines::{TestLine, plain_script, test_lines};
use geos_cli::{MOST_BYTES, ScriptFault};
use geos_scripts::{BadLines, NameUse, tell_bad_lines};
use geos_verify::{Checked, check};
use std::alloc::Global;

/// A script whose lines may end with `=>` and what they are to print.
#[derive(Clone, Copy)]
pub struct TestScript<'t> {
    /// Its path, as it is printed.
    pub path: &'t str,
    /// The bytes of the image that it is for.
    pub image: &'t [u8],
    /// Its bytes.
    pub bytes: &'t [u8],
    /// Whether its lines may write names for words that calls output.
    pub names: NameUse,
    /// What it is of the file with the path, if it is not all of it.
    pub part: Part<'t>,
}

/// A test of a source: a script that has only its calls.
#[derive(Clone, Copy)]
pub struct Part<'t> {
    /// Its name; empty for a script that is a whole file.
    pub name: &'t [u8],
    /// The number that each line has in the file; of others, lines are counted.
    pub lines: &'t [u32],
}

impl Part<'_> {
    /// A script that is a whole file.
    pub const WHOLE: Part<'static> = Part {
        name: &[],
        lines: &[],
    };

    /// The number in the file of the line with this number, counted from 1.
    pub(crate) fn number(&self, line: usize) -> u64 {
        match self.lines.get(line.saturating_sub(1)) {
            Some(number) => u64::from(*number),
            None => line as u64,
        }
    }
}

/// A script that was read, and its image, checked.
#[derive(Drop)]
pub(crate) struct Ready<'t> {
    pub(crate) checked: Checked,
    /// Its lines that are not empty.
    pub(crate) lines: Vec<TestLine<'t>>,
    /// Those that are bad before anything runs.
    pub(crate) bad: BadLines,
}

/// The image that the bytes encode, checked.
fn checked_of(alloc: Global, image: &[u8]) -> Result<Checked, ScriptFault> {
    match check(geos_image::read(alloc, image)?) {
        Ok(checked) => Ok(checked),
        Err((_image, reject)) => Err(ScriptFault::from(reject)),
    }
}

impl<'t> TestScript<'t> {
    /// Reads the script and its image. The first of these faults: `TooLong` if the script has more than 1,048,576 bytes; `BadImage`;
    /// `Rejected`. `Memory` is possible at any time.
    pub(crate) fn read(&self, alloc: Global) -> Result<Ready<'t>, ScriptFault>
        ensures { IfOk result (λ ready. expecting_of ready.lines.items ≡ expecting self.now.bytes.now) }
    {
        if self.bytes.len() > MOST_BYTES {
            return Err(ScriptFault::TooLong);
        }
        let checked = checked_of(alloc, self.image)?;
        let lines = test_lines(alloc, self.bytes)?;
        let plain = plain_script(alloc, self.bytes)?;
        let bad = tell_bad_lines(alloc, self.image, &plain, self.names)?;
        Ok(Ready {
            checked,
            lines,
            bad,
        })
    }
}
