//! The compiler.

ghost use Rattle.std.specs.Prelude.{◌≤◌, length, IfOk, IfErr};
ghost use Rattle.geos_verify.specs.Rules.{Accepted};
ghost use Rattle.tkv_checks.specs.Checked.{IsWritten};
ghost use Rattle.tkv_names.specs.Seen.{AreNamed};

use crate::emitter::{Coded, code_of};
use crate::skeleton::{bare_point, skeleton, with_budgets};
use geos_image::{Image, Point, Routine, Row, Whole};
use geos_infer::{FindError, find_image};
use geos_verify::{Checked, Reject, check};
use std::alloc::{AllocError, Global};
use tkv_checks::first_other;
use tkv_names::{NamedSource, named_source};
use tkv_places::{Declared, Placed, SourceTest, declare, place_routine};
use tkv_syntax::{Fault, Item, ItemKind, Name, Why, name_at, parse_source};

/// What a source is compiled to.
#[derive(Drop)]
pub struct Compiled {
    /// The image, which the verifier accepted.
    pub checked: Checked,
    /// The source with its placed routines, whose statements their code carries out.
    pub named: NamedSource,
    /// Of each instruction, where the source says it.
    pub places: Vec<u32>,
    /// Where the source declares routines that no public routine calls.
    pub uncalled: Vec<u32>,
}

/// The routines that are coded, and their instructions. After the first fault they do not matter.
#[derive(Drop)]
struct Program {
    text: Vec<u8>,
    items: Vec<Item>,
    routines: Vec<Routine>,
    /// Where the source declares each.
    heads: Vec<u32>,
    placed: Vec<Vec<Placed>>,
    points: Vec<Point>,
    /// Of each instruction, where the source says it.
    places: Vec<u32>,
    /// Where the source declares routines that no public routine calls.
    uncalled: Vec<u32>,
    /// The first fault, if there is one.
    fault: Option<Fault>,
}

/// The exit row of a routine: borrowed blocks are still locked.
fn exit_of(entry: &Row) -> Row {
    Row {
        slots: entry.slots,
        ..Row::open()
    }
}

impl Program {
    /// Keeps a fault, if it is the first one.
    fn refuse(&mut self, fault: Fault) {
        if self.fault.is_none() {
            self.fault = Some(fault);
        }
    }

    /// Refuses the source for what is at a place, unless the program has room and memory for it.
    fn keep(&mut self, kept: bool, why: Why, at: u32) {
        if !kept {
            self.refuse(Fault::new(why, at));
        }
    }

    /// Adds the instructions of a routine.
    fn append(&mut self, code: &[Coded]) {
        let base = self.points.len().min(4_096) as u16;
        for coded in code {
            let mut instr = coded.instr;
            if coded.leads {
                instr.target = instr.target.saturating_add(base);
            }
            let point = self.points.push(bare_point(instr)).is_ok();
            let place = self.places.push(coded.at).is_ok();
            self.keep(point && place, Why::Memory, 0);
        }
    }

    /// Adds a public routine with its code, if the format has room for both.
    fn add_code(&mut self, name: Name, at: u32, entry: &Row, code: &[Coded]) {
        let count = code.len();
        if self.points.len() + count > 4_096 || self.routines.len() >= 32 {
            return self.keep(false, Why::TooMany, at);
        }
        self.append(code);
        let routine = Routine {
            name,
            public: true,
            count: count as u16,
            budget: u32::MAX,
            exit: exit_of(entry),
            entry: *entry,
        };
        let kept = self.routines.push(routine).is_ok() && self.heads.push(at).is_ok();
        self.keep(kept, Why::Memory, 0);
    }

    /// Adds a public routine.
    fn add(&mut self, alloc: Global, name: Name, at: u32, entry: &Row, placed: &[Placed]) {
        match code_of(alloc, placed) {
            Ok(code) => self.add_code(name, at, entry, &code),
            Err(fault) => self.refuse(fault),
        }
    }
}

/// The offset of a public routine's declaration, if the item is one.
fn public_routine(declared: &Declared, index: usize) -> Option<u32> {
    match declared.items().get(index) {
        Some(item) => {
            if matches!(item.kind, ItemKind::Fn) && item.a % 2 == 1 {
                Some(item.at)
            } else {
                None
            }
        }
        None => None,
    }
}

/// Checks routines that no public routine calls, by the items that declare them. Returns where they are declared.
fn checked_alone(
    alloc: Global,
    mut declared: Declared,
    routines: &[usize],
) -> Result<Vec<u32>, Fault> {
    let mut places = Vec::new(alloc);
    for index in routines {
        if let Some(item) = declared.items().get(*index) {
            places.push(item.at)?;
        }
        let routine = place_routine(alloc, declared, *index)?;
        declared = routine.declared;
    }
    Ok(places)
}

/// The routines of a source, coded.
fn program_of(alloc: Global, text: &[u8]) -> Result<Program, Fault> {
    let source = parse_source(alloc, text)?;
    let mut program = Program {
        text: Vec::from_slice(alloc, &source.text)?,
        items: Vec::from_slice(alloc, &source.items)?,
        routines: Vec::new(alloc),
        heads: Vec::new(alloc),
        placed: Vec::new(alloc),
        points: Vec::new(alloc),
        places: Vec::new(alloc),
        uncalled: Vec::new(alloc),
        fault: None,
    };
    let mut declared = declare(alloc, source)?;
    declared.tests(alloc)?;
    for index in 0..declared.items().len() {
        if let Some(at) = public_routine(&declared, index) {
            let routine = place_routine(alloc, declared, index)?;
            program.add(
                alloc,
                name_at(text, at),
                at,
                &routine.entry,
                &routine.placed,
            );
            let kept = program.placed.push(routine.placed).is_ok();
            program.keep(kept, Why::Memory, 0);
            if let Some(fault) = program.fault {
                return Err(fault);
            }
            declared = routine.declared;
        }
    }
    let uncalled = declared.uncalled(alloc)?;
    program.uncalled = checked_alone(alloc, declared, &uncalled)?;
    if program.routines.is_empty() {
        return Err(Fault::new(Why::NoRoutine, 0));
    }
    Ok(program)
}

/// The place of a routine or instruction in the source, by the places of all; 0 if there is none.
fn place_in(places: &[u32], index: u16) -> u32 {
    match places.get(usize::from(index)) {
        Some(at) => *at,
        None => 0,
    }
}

/// The image of a program, with abstract states and step counts. If
/// a routine has no bound, the fault's place is its declaration.
fn found(alloc: Global, blank: &Image, heads: &[u32]) -> Result<Whole, Fault> {
    match find_image(alloc, blank) {
        Ok(whole) => Ok(whole),
        Err(FindError::Stopped(finding)) => {
            let at = place_in(heads, finding.routine);
            // By a call, so that the check does not go over each table here.
            drop(finding);
            Err(Fault::new(Why::NoSteps, at))
        }
        Err(FindError::Memory) => Err(Fault::new(Why::Memory, 0)),
    }
}

/// An image that the format allows.
fn allowed(image: Result<Option<Image>, AllocError>) -> Result<Image, Fault> {
    match image {
        Ok(Some(image)) => Ok(image),
        Ok(None) => Err(Fault::new(Why::TooMany, 0)),
        Err(_) => Err(Fault::new(Why::Memory, 0)),
    }
}

/// The image of a program, with rows, numbers of steps and budgets.
fn image_of(
    alloc: Global,
    routines: Vec<Routine>,
    points: Vec<Point>,
    heads: &[u32],
) -> Result<Image, Fault> {
    let blank = allowed(skeleton(alloc, routines, points))?;
    let whole = found(alloc, &blank, heads)?;
    allowed(with_budgets(alloc, whole))
}

/// The fault of an instruction that the verifier refuses.
fn refused(places: &[u32], reject: Reject) -> Fault {
    let at = place_in(places, reject.pc);
    Fault {
        number: reject.rule as u8 as u16,
        ..Fault::new(Why::Refused, at)
    }
}

/// The image, if the verifier accepts it.
fn checked_of(image: Image, places: &[u32]) -> Result<Checked, Fault>
    ensures { IfOk result (λ checked. Accepted checked) }
{
    match check(image) {
        Ok(checked) => Ok(checked),
        Err((image, reject)) => {
            drop(image);
            Err(refused(places, reject))
        }
    }
}

/// The image of a source, or the first fault that is found.
fn compile_or_fault(alloc: Global, text: &[u8]) -> Result<Compiled, Fault>
    ensures accepted { IfOk result (λ compiled. Accepted compiled.checked) }
    ensures written { IfOk result (λ compiled. IsWritten compiled.checked compiled.named.placed.items) }
    ensures named { IfOk result (λ compiled. AreNamed compiled.named.text.items compiled.named.items.items compiled.named.placed.items
        compiled.named.named.items) }
{
    let Program {
        text,
        items,
        routines,
        heads,
        placed,
        points,
        places,
        uncalled,
        fault: _,
    } = program_of(alloc, text)?;
    let image = image_of(alloc, routines, points, &heads)?;
    let checked = checked_of(image, &places)?;
    let named = named_source(alloc, text, items, placed)?;
    if let Some(r) = first_other(checked.image(), &named.placed) {
        return Err(Fault::new(Why::OtherCode, place_in(&heads, r)));
    }
    Ok(Compiled {
        checked,
        named,
        places,
        uncalled,
    })
}

/// The fault with a place that the source has.
fn within(text: &[u8], fault: Fault) -> Fault
    ensures { result.at ≤ length text.now }
{
    let most = text.len().min(4_294_967_295) as u32;
    Fault {
        at: fault.at.min(most),
        ..fault
    }
}

/// The tests of a source that is compiled, in order, as scripts of its image. Their lines have no fault.
pub fn tests_of(alloc: Global, text: &[u8]) -> Result<Vec<SourceTest>, Fault> {
    declare(alloc, parse_source(alloc, text)?)?.tests(alloc)
}

/// The image of a source, which the verifier accepts. Rows and numbers of steps are found as for an assembly text, and the verifier decides
/// here: what it refuses is a fault at the place that the source says it. Each routine's code is then compared with the placed routine: a run
/// of it does what the placed routine's statement says (`tkv_meaning`). Routines that `tkv_names` covers output what the source says. A
/// fault's place is one of the source, or its end, so that `place_of` gives a line that the source has. `Why::Memory` may come at any source.
pub fn compile(alloc: Global, text: &[u8]) -> Result<Compiled, Fault>
    ensures accepted { IfOk result (λ compiled. Accepted compiled.checked) }
    ensures written { IfOk result (λ compiled. IsWritten compiled.checked compiled.named.placed.items) }
    ensures named { IfOk result (λ compiled. AreNamed compiled.named.text.items compiled.named.items.items compiled.named.placed.items
        compiled.named.named.items) }
    ensures place { IfErr result (λ fault. fault.at ≤ length text.now) }
{
    match compile_or_fault(alloc, text) {
        Ok(compiled) => Ok(compiled),
        Err(fault) => Err(within(text, fault)),
    }
}
