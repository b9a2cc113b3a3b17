//! Images of routines, and runs of these. The digits of an image are not printed again.
//!
//! | Line | Is answered |
//! |---|---|
//! | `image` | the lines up to `end` are the image's bytes, in hexadecimal digits; a `;` begins a comment there too |
//! | `end`, `check` | what reading, writing and the verifier say of the bytes |
//! | `byte AT VALUE` | what the byte was that this value takes the place of; the image is to be checked again |
//! | `routine R` | what the image says of the routine, which is now the one that is called |
//! | `call WORD ..` | how the routine's run ends on these words, over a kernel with no block |

use crate::{Answer, text};
use geos_image::{read, write};
use geos_kernel::{Kernel, kernel_in_memory};
use geos_machine::{Machine, Outcome, admits};
use geos_verify::{Checked, check};
use std::alloc::{AllocError, Global};
use std::fmt::Write;
use std::{io, str};
use trial_lines::{Line, Runs, before_comment, told};
use vm_file::Device;

/// The size of the region of a kernel over which a routine runs by itself.
const REGION: u32 = 65_536;

/// An image that is tried.
#[derive(Drop)]
pub(crate) struct Routines {
    bytes: Vec<u8>,
    /// Whether the next lines are the image's digits.
    is_reading: bool,
    /// The image of the bytes, where it was checked and may run.
    accepted: Option<Checked>,
    /// The index of the routine that is called.
    routine: u16,
    /// The handles of the blocks that the next runs are lent, one for each slot.
    lent: [u16; 4],
}

impl Routines {
    /// No image.
    pub(crate) fn new(alloc: Global) -> Routines {
        Routines {
            bytes: Vec::new(alloc),
            is_reading: false,
            accepted: None,
            routine: 0,
            lent: [0; 4],
        }
    }

    /// Makes the call of a line.
    pub(crate) fn answer(&mut self, alloc: Global, line: &Line<'_>) -> Result<Answer, AllocError> {
        match line.word {
            "image" => {
                self.bytes.clear();
                self.is_reading = true;
                Ok(Answer::Said("its digits follow"))
            }
            "lend" => {
                let [h0, h1, h2, h3, ..] = line.words();
                self.lent = [h0, h1, h2, h3];
                Ok(Answer::Done)
            }
            "end" | "check" => self.check(alloc),
            "byte" => self.change(alloc, line),
            "routine" => self.choose(alloc, line.word_at(0)),
            "call" => {
                let mut kernel = kernel_in_memory(alloc, REGION)?;
                self.call(alloc, &mut kernel, self.routine, &line.words())
            }
            _ => Ok(Answer::NotACall),
        }
    }

    /// Whether a line has digits of the image.
    pub(crate) fn takes(&self, text: &str) -> bool {
        self.is_reading && before_comment(text).trim() != "end"
    }

    /// Takes the bytes that a line encodes.
    pub(crate) fn take(&mut self, rt: &HostRuntime, text: &str) -> io::Result<()> {
        for digits in before_comment(text).split_whitespace() {
            match hex::decode(rt.alloc(), digits) {
                Ok(bytes) => self.bytes.extend_from_slice(&bytes)?,
                Err(why) => return println!(rt; "{text} -> {why}"),
            }
        }
        Ok(())
    }

    /// Reads the image, writes it again and checks it.
    fn check(&mut self, alloc: Global) -> Result<Answer, AllocError> {
        self.is_reading = false;
        self.accepted = None;
        let image = match read(alloc, &self.bytes) {
            Ok(image) => image,
            Err(why) => return told(alloc, why),
        };
        if write(alloc, &image)? != self.bytes {
            return Ok(Answer::Said("written again with other bytes"));
        }
        let bytes = self.bytes.len();
        let (routines, instrs) = (image.count(), image.len());
        match check(image) {
            Ok(checked) => self.accepted = Some(checked),
            Err((_, reject)) => return told(alloc, reject),
        }
        text(format!(in alloc;
            "accepted, written again as it was read: bytes {bytes}, routines {routines}, instructions {instrs}"
        ))
    }

    /// Changes a byte.
    fn change(&mut self, alloc: Global, line: &Line<'_>) -> Result<Answer, AllocError> {
        self.accepted = None;
        let Some(byte) = self.bytes.get_mut(usize::from(line.word_at(0))) else {
            return Ok(Answer::NotAsked("there is no such byte"));
        };
        let before = *byte;
        *byte = line.byte_at(1);
        text(format!(in alloc; "was {before}"))
    }

    /// Chooses the routine that is called, and says what the image has under that index.
    fn choose(&mut self, alloc: Global, index: u16) -> Result<Answer, AllocError> {
        self.routine = index;
        let Some(checked) = &self.accepted else {
            return Ok(Answer::NotAsked("no image is accepted"));
        };
        if index >= checked.image().count() {
            return Ok(Answer::NotAsked("there is no such routine"));
        }
        let routine = checked.image().routine(index);
        let name = str::from_utf8(routine.name_text()).unwrap_or("no text");
        let access = if routine.public { "public" } else { "private" };
        text(format!(in alloc;
            "{name}, {access}, instructions {}, budget {}",
            routine.count, routine.budget
        ))
    }

    /// Runs a routine on words, where it may be called with them.
    pub(crate) fn call<D: Device + Drop>(
        &self,
        alloc: Global,
        kernel: &mut Kernel<D>,
        routine: u16,
        words: &[u16; 8],
    ) -> Result<Answer, AllocError> {
        let Some(checked) = &self.accepted else {
            return Ok(Answer::NotAsked("no image is accepted"));
        };
        if !admits(checked, routine, words, &self.lent, kernel) {
            return Ok(Answer::NotAsked("not admitted"));
        }
        let outcome = Machine::new().run(checked, routine, words, &self.lent, kernel);
        ended(alloc, &outcome)
    }
}

/// How a run ended.
fn ended(alloc: Global, outcome: &Outcome) -> Result<Answer, AllocError> {
    let steps = outcome.steps;
    let [w0, w1, w2, w3, w4, w5, w6, w7] = outcome.words;
    let mut text = format!(in alloc;
        "steps {steps}, words {w0} {w1} {w2} {w3} {w4} {w5} {w6} {w7}, "
    )?;
    match outcome.output.as_slice() {
        [] => text.push_str("no output")?,
        output => write!(text, "output {}", Runs(output))?,
    }
    Ok(Answer::Text(text))
}
