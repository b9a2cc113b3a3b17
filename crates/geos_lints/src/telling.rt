//! Warnings in words.

use crate::advice::Advice;
use crate::finding::{Lint, lints};
use crate::items::{Doubled, doubled_items};
use crate::words::written;
use geos_image::{Image, Instr};
use std::alloc::{AllocError, Global};

/// The most warnings that are written; the number of the others follows.
const MOST: usize = 20;

/// The number of the only word of a set.
fn number_of(words: u8) -> u32 {
    words.trailing_zeros()
}

/// What is not meant at an instruction.
fn fact_of(alloc: Global, lint: Lint, i: &Instr) -> Result<String, AllocError> {
    let name = i.opcode.word();
    match lint {
        Lint::NeverReached => { format!(in alloc; "{name} is never reached: no way leads here") }
        Lint::NeverRead => {
            let word = number_of(written(i));
            format!(in alloc; "nothing reads the value that {name} puts into w{word}")
        }
        Lint::LostInWord7 => {
            format!(in alloc;
                "if {name} is refused, the number of the refusal replaces the value in w7, which is read later"
            )
        }
        Lint::RunsIntoRefusals => {
            format!(in alloc;
                "after {name} control comes to where refusals lead, and outputs w7 without a refusal"
            )
        }
        Lint::NeverTurns => {
            let counter = i.a;
            format!(in alloc; "k{counter} is set to 0, so its LOOP never jumps")
        }
        Lint::NeverJumps => {
            let counter = i.a;
            format!(in alloc; "k{counter} is 0 here on each path, so this LOOP never jumps")
        }
    }
}

/// What helps with it, if that is known.
fn cure_of(lint: Lint) -> &'static str {
    match lint {
        Lint::LostInWord7 => "keep the value in another word",
        Lint::RunsIntoRefusals => "write RET or JMP after it",
        Lint::NeverJumps => "count this loop by another counter",
        Lint::NeverReached | Lint::NeverRead | Lint::NeverTurns => "",
    }
}

/// What a warning says of an instruction. `AllocError` if the allocator refuses memory.
pub fn advice_on(alloc: Global, lint: Lint, i: &Instr) -> Result<Advice, AllocError> {
    Ok(Advice {
        fact: fact_of(alloc, lint, i)?.into_bytes(),
        cure: Vec::from_slice(alloc, cure_of(lint).as_bytes())?,
    })
}

/// What a warning says of a register that comes twice in a line. `AllocError` if the allocator refuses memory.
pub fn advice_on_doubled(alloc: Global, doubled: &Doubled) -> Result<Advice, AllocError> {
    let mut fact = Vec::from_slice(alloc, doubled.register)?;
    fact.extend_from_slice(b" comes again in this line, and only ")?;
    fact.extend_from_slice(doubled.last)?;
    fact.extend_from_slice(b" counts")?;
    let mut cure = Vec::from_slice(alloc, b"omit ")?;
    cure.extend_from_slice(doubled.first)?;
    Ok(Advice { fact, cure })
}

/// Warnings that are written.
#[derive(Drop)]
struct WarningList<'f> {
    alloc: Global,
    file: &'f str,
    told: Vec<u8>,
    count: usize,
}

impl WarningList<'_> {
    /// Takes a warning about a line, which is written if it is one of the first.
    fn put(&mut self, line: u32, advice: &Advice) -> Result<(), AllocError> {
        self.count = self.count.saturating_add(1);
        if self.count > MOST {
            return Ok(());
        }
        let file = self.file;
        let front = format!(in self.alloc; "{file}:{line}: warning: ")?;
        self.told.extend_from_slice(front.as_bytes())?;
        self.told.extend_from_slice(&advice.sentence(self.alloc)?)?;
        self.told.push(b'\n')?;
        Ok(())
    }

    /// Takes the registers that come twice in lines up to one, from the first of them on that was not taken. Returns how many were taken.
    fn put_doubled(
        &mut self,
        doubled: &[Doubled],
        first: usize,
        line: u32,
    ) -> Result<usize, AllocError> {
        let mut taken = first;
        for item in doubled.iter().skip(first) {
            if item.line > line {
                break;
            }
            self.put(item.line, &advice_on_doubled(self.alloc, item)?)?;
            taken = taken.saturating_add(1);
        }
        Ok(taken)
    }

    /// All lines, and how many more warnings there are.
    fn finish(self) -> Result<Vec<u8>, AllocError> {
        let WarningList {
            alloc,
            file,
            mut told,
            count,
        } = self;
        let more = count.saturating_sub(MOST);
        if more > 0 {
            let rest = format!(in alloc; "{file}: note: and {more} more warnings\n")?;
            told.extend_from_slice(rest.as_bytes())?;
        }
        Ok(told)
    }
}

/// The warnings on a text and its image, a line `FILE:LINE: warning: ..` each, at most 20. `lines` has the number of the line of each
/// instruction.
pub fn warnings(
    alloc: Global,
    file: &str,
    text: &[u8],
    lines: &[u32],
    image: &Image,
) -> Result<Vec<u8>, AllocError> {
    let doubled = doubled_items(alloc, text)?;
    let mut taken: usize = 0;
    let mut warnings = WarningList {
        alloc,
        file,
        told: Vec::new(alloc),
        count: 0,
    };
    for (pc, lint) in &lints(alloc, image)? {
        if let (Some(line), Some(point)) = (lines.get(*pc), image.points().get(*pc)) {
            taken = warnings.put_doubled(&doubled, taken, *line)?;
            warnings.put(*line, &advice_on(alloc, *lint, &point.instr)?)?;
        }
    }
    warnings.put_doubled(&doubled, taken, u32::MAX)?;
    warnings.finish()
}
