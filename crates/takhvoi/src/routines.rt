//! The routines of an image.

ghost use Rattle.std.specs.Prelude.{◌≡◌, ◌≤◌, ◌<◌, IfOk, length, Some};
ghost use Rattle.takhvoi.specs.Answers.{On};
ghost use Rattle.takhvoi.specs.Routines.{AreRoutines, TellsRoutines, routine_in, slot_number};

use crate::handle::Handle;
use crate::held::{put, take};
use crate::images::image_of;
use crate::records::{push_some, show};
use crate::status::{DONE, NO_KERNEL, NO_MEMORY, NOT_ADMITTED};
use crate::system::System;
use geos_image::{Image, SlotState};
use std::alloc::{AllocError, Global};

/// A routine: its name, 1 if it is public, its first instruction, how many it has, its budget, and where it begins the bounds of words and what
/// slots hold.
#[repr(C)]
#[derive(Clone, Copy)]
pub struct RoutineEntry {
    pub(crate) name: [u8; 16],
    pub(crate) is_public: u32,
    pub(crate) first: u32,
    pub(crate) length: u32,
    pub(crate) budget: u32,
    pub(crate) bounds: [u16; 8],
    pub(crate) slots: [u8; 4],
}

/// The number of what a slot holds.
fn slot_number(state: SlotState) -> u8
    ensures { result ≡ slot_number state }
{
    match state {
        SlotState::Empty => 0,
        SlotState::Mem => 1,
        SlotState::Vm { marked, borrowed } => match (marked, borrowed) {
            (false, false) => 2,
            (true, false) => 3,
            (false, true) => 6,
            (true, true) => 7,
        },
        SlotState::Db { marked } => { if marked { 5 } else { 4 } }
    }
}

/// The routine with a number.
fn routine_in(image: &Image, r: u16) -> RoutineEntry
    requires { r < length image.now.routines }
    ensures { Some result ≡ routine_in image.now r }
{
    let routine = image.routine(r);
    let [s0, s1, s2, s3] = routine.entry.slots;
    RoutineEntry {
        name: routine.name,
        is_public: u32::from(routine.public),
        first: u32::from(image.start(r)),
        length: u32::from(routine.count),
        budget: routine.budget,
        bounds: routine.entry.bounds,
        slots: [
            slot_number(s0),
            slot_number(s1),
            slot_number(s2),
            slot_number(s3),
        ],
    }
}

/// All routines.
fn routines_of(alloc: Global, image: &Image) -> Result<Vec<RoutineEntry>, AllocError>
    ensures are { IfOk result (λ routines. AreRoutines image.now routines.items) }
    ensures few { IfOk result (λ routines. length routines.items ≤ 65535) }
{
    let mut routines = Vec::new(alloc);
    for r in 0..image.count() {
        push_some(&mut routines, Some(routine_in(image, r)))?;
    }
    Ok(routines)
}

fn routines_in(
    alloc: Global,
    system: &System,
    number: u32,
    into: &mut [RoutineEntry],
    count: &mut u32,
) -> u32
    ensures tells { TellsRoutines number count.new into.old into.new result system.now system.now }
    ensures kept { (result ≡ 0 → ⊥) → into.new ≡ into.old }
{
    let Some(checked) = image_of(&system.images, number) else {
        return NOT_ADMITTED;
    };
    match routines_of(alloc, checked.image()) {
        Ok(routines) => {
            show(&routines, into, count);
            DONE
        }
        Err(_) => NO_MEMORY,
    }
}

/// Writes the routines of a loaded image to `into`, by their numbers, as many as there is room for; `count` is their number. `NOT_ADMITTED` if
/// there is no such image.
#[unsafe(no_mangle)]
pub extern "C" fn takhvoi_routines(
    alloc: Global,
    handle: &mut Handle,
    number: u32,
    into: &mut [RoutineEntry],
    count: &mut u32,
) -> u32
    ensures tells { On (TellsRoutines number count.new into.old into.new result) result handle.old handle.new }
    ensures kept { (result ≡ 0 → ⊥) → into.new ≡ into.old }
{
    let Some(system) = take(alloc, handle) else {
        return NO_KERNEL;
    };
    let status = routines_in(alloc, &system, number, into, count);
    put(handle, system);
    status
}
