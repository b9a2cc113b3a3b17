//! Runs of routines that a debugger looks at.

ghost use Rattle.std.specs.Prelude.{◌≡◌, ℕ, List};
ghost use Rattle.takhvoi.specs.Images.{EndsRun, ServesRun};

use crate::handle::Handle;
use crate::held::{put, take};
use crate::images::{image_of, run_in};
use crate::looks::{Look, Looker, Picture, State, States};
use crate::places::Place;
use crate::status::{self, NO_KERNEL};
use crate::system::System;
use geos_kernel::Refusal;
use geos_verify::{Checked, Place as Point, places_of};
use std::alloc::{AllocError, Global};

/// What the verifier knows at each instruction of an image.
fn known_in(
    alloc: Global,
    images: &Vec<Option<Checked>>,
    number: u32,
) -> Result<Vec<Point>, AllocError> {
    match image_of(images, number) {
        Some(checked) => places_of(alloc, checked.image()),
        None => Ok(Vec::new(alloc)),
    }
}

fn trace_in(
    alloc: Global,
    system: &mut System,
    number: u32,
    routine: u16,
    words: &mut [u16; 8],
    handles: &[u16; 4],
    output: &mut [u16],
    count: &mut u32,
    steps: &mut u32,
    first: u32,
    into: &mut [State],
) -> u32
    ensures ends { EndsRun number routine words.old handles.now words.new output.old output.new count.new steps.new result system.old system.new }
    ensures kept { (result ≡ 0 → ⊥) → (words.new ≡ words.old) × (output.new ≡ output.old) }
{
    let Ok(known) = known_in(alloc, &system.images, number) else {
        return status::number(Refusal::Memory);
    };
    let states = States {
        known,
        first,
        next: 0,
        into,
    };
    let mut looker = Looker::new(alloc, Look::States(states));
    run_in(
        system,
        number,
        routine,
        words,
        handles,
        output,
        count,
        steps,
        &mut looker,
    )
}

/// Runs a routine as `takhvoi_run` does, and writes the state before each step to `into`, from step `first` on, as many as there is room for.
#[unsafe(no_mangle)]
pub extern "C" fn takhvoi_trace(
    alloc: Global,
    handle: &mut Handle,
    number: u32,
    routine: u16,
    words: &mut [u16; 8],
    handles: &[u16; 4],
    output: &mut [u16],
    count: &mut u32,
    steps: &mut u32,
    first: u32,
    into: &mut [State],
) -> u32
    ensures served { ServesRun number routine words.old handles.now words.new output.old output.new count.new steps.new result handle.old handle.new }
    ensures kept { (result ≡ 0 → ⊥) → (words.new ≡ words.old) × (output.new ≡ output.old) }
{
    let Some(mut system) = take(alloc, handle) else {
        return NO_KERNEL;
    };
    let status = trace_in(
        alloc,
        &mut system,
        number,
        routine,
        words,
        handles,
        output,
        count,
        steps,
        first,
        into,
    );
    put(handle, system);
    status
}

/// Runs a routine as `takhvoi_run` does, and writes what memory has before a step: its blocks to `into`, as `takhvoi_places` does, and the first
/// bytes of the region to `region`. If there is no such step, `count` is 0.
#[unsafe(no_mangle)]
pub extern "C" fn takhvoi_memory_at(
    alloc: Global,
    handle: &mut Handle,
    number: u32,
    routine: u16,
    words: &mut [u16; 8],
    handles: &[u16; 4],
    step: u32,
    into: &mut [Place],
    count: &mut u32,
    region: &mut [u8],
) -> u32
    ensures served { (room output : List ℕ) × ((n steps : ℕ)
        × ServesRun number routine words.old handles.now words.new room output n steps result handle.old handle.new) }
    ensures kept { (result ≡ 0 → ⊥) → words.new ≡ words.old }
{
    let Some(mut system) = take(alloc, handle) else {
        return NO_KERNEL;
    };
    *count = 0;
    let picture = Picture {
        alloc,
        step,
        next: 0,
        into,
        count,
        region,
    };
    let mut looker = Looker::new(alloc, Look::Memory(picture));
    let (mut output, mut n, mut steps) = ([0], 0, 0);
    let status = run_in(
        &mut system,
        number,
        routine,
        words,
        handles,
        &mut output,
        &mut n,
        &mut steps,
        &mut looker,
    );
    put(handle, system);
    status
}
