//! The texts of `dump`, `map` and `trace`. They change nothing: what they do, they do on a copy of the VM file.

ghost use Rattle.std.specs.Prelude.{◌≡◌, true};
ghost use Rattle.script_commands.specs.Lines.{may_ask};

use crate::record::Record;
use crate::reply::{Reply, joined};
use geos_cli::{Unwatched, trace_lent};
use geos_dump::{Detail, Side, View, dump, map, read_areas};
use geos_image::Image;
use geos_machine::{Outcome, Trace};
use geos_terms::Refusal;
use geos_trace::{put_end, put_refused, put_step};
use line_marks::Origin;
use script_commands::{Call, Command, command_in};
use std::alloc::{AllocError, Global};
use vm_file::{How, MemoryDevice, VmFile};

/// How many columns a drawing has.
const COLUMNS: u16 = 80;

/// How many steps are printed at most.
const MOST_STEPS: usize = 10_000;

/// The line of a refusal. `None` if there is no memory.
fn refused(alloc: Global, refusal: Refusal) -> Option<Vec<u8>> {
    let mut out = Vec::new(alloc);
    match put_refused(&mut out, refusal.number()) {
        Ok(()) => Some(out),
        Err(_) => None,
    }
}

/// What is printed of a block, or of a chunk of it; with none, of all blocks.
pub(crate) fn view_of(block: Option<u16>, chunk: Option<u16>) -> View {
    let (detail, side) = match block {
        Some(_) => (Detail::Bytes, Some(Side::Current)),
        None => (Detail::Lines, None),
    };
    View {
        detail,
        short: false,
        side,
        block,
        chunk,
    }
}

/// The blocks of the VM file on a device, printed in the view, or drawn. `None` if there is no memory: nothing else fails in memory.
fn picture_of(alloc: Global, mut device: MemoryDevice, view: Option<View>) -> Option<Vec<u8>> {
    let Ok(areas) = read_areas(&mut device) else {
        return None;
    };
    let Ok(mut file) = VmFile::open(alloc, device) else {
        return None;
    };
    let text = match view {
        Some(view) => dump(alloc, &mut file, view),
        None => map(alloc, &mut file, areas, COLUMNS),
    };
    text.ok()
}

/// What the text has for each instruction, if there is one.
fn listed<'l, 'o>(origins: &'l Option<Vec<Origin<'o>>>) -> Option<&'l [Origin<'o>]> {
    match origins {
        Some(origins) => Some(origins.as_slice()),
        None => None,
    }
}

/// The budget of a routine.
fn budget_of(image: &Image, routine: u16) -> u32 {
    if routine < image.count() {
        image.routine(routine).budget
    } else {
        0
    }
}

/// Appends the lines of steps that were noted.
fn put_steps(
    out: &mut Vec<u8>,
    image: &Image,
    origins: Option<&[Origin<'_>]>,
    notes: &Trace,
) -> Result<(), AllocError> {
    for noted in notes.steps() {
        put_step(out, image, origins, noted)?;
    }
    Ok(())
}

impl Record<'_, '_> {
    /// The blocks of the VM file after an `update`, printed as `geos dump` prints what is in the view, or drawn as by `geos map` without one.
    /// The line of the refusal if the `update` is refused. `None` if there is no memory.
    pub(crate) fn picture(&self, alloc: Global, view: Option<View>) -> Option<Vec<u8>> {
        let mut kernel = self.again(alloc)?;
        if !kernel.vm_unlocked() {
            return refused(alloc, Refusal::Locked);
        }
        match kernel.commit(How::Update) {
            Ok(()) => picture_of(alloc, kernel.close(), view),
            Err(refusal) => refused(alloc, refusal),
        }
    }

    /// The lines of steps that were noted, and what is left of the budget. `None` if there is no memory.
    fn told_of(
        &self,
        alloc: Global,
        routine: u16,
        outcome: &Outcome,
        notes: &Trace,
    ) -> Option<Vec<u8>> {
        let image = self.checked.image();
        let Ok(origins) = self.routines.origins(alloc, true) else {
            return None;
        };
        let mut out = Vec::new(alloc);
        if put_steps(&mut out, image, listed(&origins), notes).is_ok()
            && put_end(&mut out, outcome, budget_of(image, routine)).is_ok()
        {
            Some(out)
        } else {
            None
        }
    }

    /// The steps of a call on a copy of the VM file, and what is left of the budget. `None` if there is no memory.
    fn steps_of(&self, alloc: Global, call: &Call) -> Option<Vec<u8>>
        requires { may_ask self.now.checked.now call.now ≡ true }
    {
        let mut kernel = self.again(alloc)?;
        if !kernel.vm_unlocked() {
            return refused(alloc, Refusal::Locked);
        }
        let end = self.checked.image().len();
        let Ok(mut notes) = Trace::new(alloc, 0, end, MOST_STEPS) else {
            return None;
        };
        match trace_lent(self.checked, call, &mut kernel, &mut notes, &mut Unwatched) {
            Ok(outcome) => self.told_of(alloc, call.routine, &outcome, &notes),
            Err(refusal) => refused(alloc, refusal),
        }
    }

    /// The steps of the call with the words after `trace`, which changes nothing. `None` if there is no memory.
    pub(crate) fn trace(&self, alloc: Global, words: &[u8]) -> Option<Reply> {
        let line = joined(alloc, b"call ", words)?;
        let names = self.past.names(alloc)?;
        match command_in(alloc, self.checked, &names, &line) {
            Ok(Some(Command::Call(call))) => Some(Reply::Text(self.steps_of(alloc, &call)?)),
            Ok(_) => self.why_bad(alloc, &line),
            Err(_) => None,
        }
    }
}
