//! The notes on a run as JSON objects.

use crate::choosing::Chosen;
use crate::objects::put_outcome;
use crate::tracing::steps_shown;
use geos_cli::TracedCall;
use geos_image::{Image, Instr};
use geos_json::JsonLines;
use geos_machine::{Left, Noted};
use geos_shell::TraceWords;
use geos_trace::{origin_of, put_done, put_instruction};
use line_marks::Origin;
use std::alloc::{AllocError, Global};

/// What is traced: an image, and what its text has for each instruction.
#[derive(Clone, Copy)]
struct Traced<'i, 'o> {
    alloc: Global,
    image: &'i Image,
    origins: Option<&'o [Origin<'o>]>,
}

/// The file of an instruction and its line, if they are known.
fn put_line(objects: &mut JsonLines, origin: Option<&Origin<'_>>) {
    let Some(origin) = origin else {
        objects.null("file");
        return objects.null("line");
    };
    match origin.place.file {
        Some(file) => objects.text("file", file.as_bytes()),
        None => objects.null("file"),
    }
    objects.number("line", origin.place.line)
}

impl<'i> Traced<'i, '_> {
    /// The place of an instruction, and the instruction.
    fn put_place(&self, objects: &mut JsonLines, pc: u16) -> Result<(), AllocError> {
        let origin = origin_of(self.origins, pc);
        put_line(objects, origin);
        objects.text("routine", self.routine_of(pc));
        objects.number("pc", u64::from(pc));
        let mut code = Vec::new(self.alloc);
        if pc < self.image.len() {
            put_instruction(&mut code, self.image, origin, pc)?;
        }
        objects.text("text", code.trim_ascii());
        Ok(())
    }

    /// The name of the routine that an instruction is in.
    fn routine_of(&self, pc: u16) -> &'i [u8] {
        let mut found = 0;
        for r in 0..self.image.count() {
            if self.image.start(r) <= pc {
                found = r;
            }
        }
        if found < self.image.count() {
            self.image.routine(found).name_text()
        } else {
            &[]
        }
    }

    /// A step.
    fn put_step(
        &self,
        objects: &mut JsonLines,
        number: u64,
        noted: &Noted,
    ) -> Result<(), AllocError> {
        objects.begin("step");
        objects.number("step", number);
        self.put_place(objects, noted.pc)?;
        let mut done = Vec::new(self.alloc);
        if noted.pc < self.image.len() {
            put_done(&mut done, self.image.instr(noted.pc), noted)?;
        }
        objects.text("did", done.trim_ascii());
        objects.numbers("words", &noted.words);
        objects.numbers("counters", &noted.counters);
        objects.end();
        Ok(())
    }

    /// How often an instruction ran.
    fn put_count(&self, objects: &mut JsonLines, pc: u16, count: u32) -> Result<(), AllocError> {
        objects.begin("count");
        objects.number("count", u64::from(count));
        self.put_place(objects, pc)?;
        objects.end();
        Ok(())
    }
}

/// What is printed of a call that was traced: its steps, or how often each instruction ran; then its outputs and the number of its steps.
pub(crate) fn trace_objects(
    alloc: Global,
    words: &TraceWords<'_>,
    origins: Option<&[Origin<'_>]>,
    call: &TracedCall,
    chosen: &Chosen,
) -> Result<Vec<u8>, AllocError> {
    let image = call.checked.image();
    let traced = Traced {
        alloc,
        image,
        origins,
    };
    let mut objects = JsonLines::new(alloc);
    if words.count {
        for pc in 0..image.len() {
            traced.put_count(&mut objects, pc, call.trace.count(pc))?;
        }
    } else {
        let mut number = u64::from(words.skipped);
        for noted in steps_shown(words, call) {
            number = number.saturating_add(1);
            if chosen.has(&words.choice, number, noted) {
                traced.put_step(&mut objects, number, noted)?;
            }
        }
    }
    put_outcome(&mut objects, call);
    objects.finish()
}
