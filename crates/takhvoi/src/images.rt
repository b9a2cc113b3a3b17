//! Loading of images, and running of their routines.

ghost use Rattle.std.specs.Option.{option_copied};
ghost use Rattle.std.specs.Prelude.{◌≡◌, ◌<◌, ◌≤◌, ◌⊎◌, ℕ, true, Ok, Err, Some, IfErr, IfOk, IfNone, IfSome, IsSomeAnd, length, slice_get};
ghost use Rattle.lmem_raw.specs.Bytes.{with_part};
ghost use Rattle.geos_image.specs.Parts.{Parts};
ghost use Rattle.geos_image.specs.Reading.{image_at};
ghost use Rattle.takhvoi.specs.Answers.{On};
ghost use Rattle.geos_calls.specs.VmFile.{VmFile};
ghost use Rattle.geos_verify.specs.Entry.{admits, entry_slots};
ghost use Rattle.geos_kernel.specs.View.{IsFileOf};
ghost use Rattle.geos_machine.specs.Lent.{Lends};
ghost use Rattle.geos_machine.specs.Runs.{Gave, Throughout};
ghost use Rattle.granted_runs.specs.Keeps.{RanWithin};
ghost use Rattle.geos_verify.specs.RuleText.{rule_number};
ghost use Rattle.takhvoi.specs.Images.{EndsRun, FindsRoutine, IsLoaded, IsLowestFree, IsNamed, IsRejected, IsUnloaded, NoneIsNamed, ServesRun};

use crate::handle::Handle;
use crate::held::{put, take};
use crate::journal::{is_performed, make_room, rest};
use crate::looks::{Look, Looker};
use crate::status::{self, BAD_IMAGE, DONE, NO_KERNEL, NO_MEMORY, NOT_ADMITTED, PENDING, REFUSED};
use crate::system::System;
use geos_image::{Image, ReadError};
use geos_kernel::{Kernel, Refusal};
use geos_machine::{Machine, Outcome, Unwatched, admits};
use geos_verify::{Checked, Rule, check};
use granted_runs::{RoutineCall, run_granted, watch_granted};
use std::alloc::Global;
use vm_file::Device;

/// The most images that are loaded at once.
const MOST_IMAGES: usize = 65_536;

/// The lowest number without an image.
#[tactic(auto, using(crate::proofs::Numbers::none_past, crate::proofs::Numbers::none_there, crate::proofs::Numbers::some_below))]
fn lowest_free(images: &Vec<Option<Checked>>) -> usize
    ensures free { (image : Parts) → slice_get images.now.items result ≡ Some (Some image) → ⊥ }
    ensures lower { (m : ℕ) → m < result → (image : Parts) × (slice_get images.now.items m ≡ Some (Some image)) }
    ensures within { result ≤ length images.now.items }
{
    for n in 0..images.len() {
        if images[n].is_none() {
            return n;
        }
    }
    images.len()
}

/// Appends an image to the others.
#[tactic(auto, using(crate::proofs::Numbers::stays_behind, crate::proofs::Numbers::is_last))]
fn append(images: &mut Vec<Option<Checked>>, checked: Checked, number: &mut u32) -> u32
    ensures number { result ≡ 0 → number.new ≡ length images.old.items }
    ensures stands { result ≡ 0 → slice_get images.new.items number.new ≡ Some (Some checked) }
    ensures stay { (n : ℕ) (image : Parts) → slice_get images.old.items n ≡ Some (Some image) → slice_get images.new.items n ≡ Some (Some image) }
    ensures own { (result ≡ 0) ⊎ (result ≡ 111) }
{
    let next = images.len();
    if next >= MOST_IMAGES {
        return NO_MEMORY;
    }
    if images.push(Some(checked)).is_err() {
        return NO_MEMORY;
    }
    *number = next as u32;
    DONE
}

/// Stores an image under the lowest free number. `NO_MEMORY` if there are 65,536 already, or if the allocator refuses.
#[tactic(auto, using(crate::proofs::Numbers::set_stays, crate::proofs::Numbers::set_is, crate::proofs::Numbers::is_lowest))]
pub(crate) fn keep(images: &mut Vec<Option<Checked>>, checked: Checked, number: &mut u32) -> u32
    ensures lowest { result ≡ 0 → IsLowestFree images.old.items number.new }
    ensures stands { result ≡ 0 → slice_get images.new.items number.new ≡ Some (Some checked) }
    ensures stay { (n : ℕ) (image : Parts) → slice_get images.old.items n ≡ Some (Some image) → slice_get images.new.items n ≡ Some (Some image) }
    ensures own { (result ≡ 0) ⊎ (result ≡ 111) }
{
    let free = lowest_free(images);
    if free >= images.len() {
        return append(images, checked, number);
    }
    if free >= MOST_IMAGES {
        return NO_MEMORY;
    }
    images[free] = Some(checked);
    *number = free as u32;
    DONE
}

/// The number of a rule.
fn number_of(rule: Rule) -> u32
    ensures { result ≡ rule_number rule }
{
    rule as u32
}

/// The image that bytes encode, if the verifier accepts it; otherwise the status.
pub(crate) fn accepted(
    alloc: Global,
    bytes: &[u8],
    place: &mut u64,
    rule: &mut u32,
) -> Result<Checked, u32>
    ensures image { IfOk result (λ checked. image_at bytes.now ≡ Ok checked) }
    ensures bad { IfErr result (λ status. status ≡ 112 → image_at bytes.now ≡ Err place.new) }
    ensures refused { IfErr result (λ status. status ≡ 113 → IsRejected bytes.now place.new rule.new) }
    ensures own { IfErr result (λ status. (status ≡ 111) ⊎ ((status ≡ 112) ⊎ (status ≡ 113))) }
{
    let image = match geos_image::read(alloc, bytes) {
        Ok(image) => image,
        Err(ReadError::BadImage(at)) => {
            *place = at as u64;
            return Err(BAD_IMAGE);
        }
        Err(ReadError::Memory) => return Err(NO_MEMORY),
    };
    match check(image) {
        Ok(checked) => Ok(checked),
        Err((_image, reject)) => {
            *place = u64::from(reject.pc);
            *rule = number_of(reject.rule);
            Err(REFUSED)
        }
    }
}

fn load_in(
    alloc: Global,
    system: &mut System,
    bytes: &[u8],
    number: &mut u32,
    place: &mut u64,
    rule: &mut u32,
) -> u32
    ensures loaded { IsLoaded bytes.now number.new result system.old system.new }
    ensures bad { result ≡ 112 → image_at bytes.now ≡ Err place.new }
    ensures refused { result ≡ 113 → IsRejected bytes.now place.new rule.new }
{
    match accepted(alloc, bytes, place, rule) {
        Ok(checked) => keep(&mut system.images, checked, number),
        Err(status) => status,
    }
}

/// Reads and checks the image that bytes encode, and writes its number; or, to `place`, the offset of the first faulty byte, or the first
/// refused pc, with the lowest rule that refuses it.
#[unsafe(no_mangle)]
pub extern "C" fn takhvoi_load(
    alloc: Global,
    handle: &mut Handle,
    bytes: &[u8],
    number: &mut u32,
    place: &mut u64,
    rule: &mut u32,
) -> u32
    ensures loaded { On (IsLoaded bytes.now number.new result) result handle.old handle.new }
    ensures bad { result ≡ 112 → image_at bytes.now ≡ Err place.new }
    ensures refused { result ≡ 113 → IsRejected bytes.now place.new rule.new }
{
    let Some(mut system) = take(alloc, handle) else {
        return NO_KERNEL;
    };
    let status = load_in(alloc, &mut system, bytes, number, place, rule);
    put(handle, system);
    status
}

#[tactic(auto, using(crate::proofs::Numbers::set_is, crate::proofs::Numbers::others_stay, crate::proofs::Numbers::none_from))]
fn unload_in(system: &mut System, number: u32) -> u32
    ensures { IsUnloaded number result system.old system.new }
{
    let n = number as usize;
    if n >= system.images.len() {
        return NOT_ADMITTED;
    }
    system.images[n] = None;
    DONE
}

/// Frees an image; a later image may get its number.
#[unsafe(no_mangle)]
pub extern "C" fn takhvoi_unload(alloc: Global, handle: &mut Handle, number: u32) -> u32
    ensures { On (IsUnloaded number result) result handle.old handle.new }
{
    let Some(mut system) = take(alloc, handle) else {
        return NO_KERNEL;
    };
    let status = unload_in(&mut system, number);
    put(handle, system);
    status
}

/// The image with a number.
pub(crate) fn image_of(images: &Vec<Option<Checked>>, number: u32) -> Option<&Checked>
    ensures some { IfSome (option_copied result) (λ image. slice_get images.now.items number ≡ Some (Some image)) }
    ensures none { IfNone (option_copied result) ((image : Parts) → slice_get images.now.items number ≡ Some (Some image) → ⊥) }
{
    match images.get(number as usize) {
        Some(Some(checked)) => Some(checked),
        _ => None,
    }
}

/// Copies words to the beginning of a buffer, as many as there is room for.
fn put_words(words: &[u16], into: &mut [u16])
    ensures { into.new ≡ with_part into.old 0 words.now }
{
    let n = words.len().min(into.len());
    into[..n].copy_from_slice(&words[..n]);
}

/// The routine of a run, its words, and the handles of the blocks that it is lent.
#[derive(Drop)]
struct Start {
    routine: u16,
    words: [u16; 8],
    handles: [u16; 4],
}

/// Runs a routine, which leaves what is not granted as it was. `None` if the memory that a look at the run needs is refused; then nothing has
/// changed.
fn run_on<'m, D: Device + Drop>(
    machine: &'m mut Machine,
    checked: &Checked,
    start: &Start,
    kernel: &mut Kernel<D>,
    looker: &'m mut Looker<'_>,
) -> Option<&'m Outcome>
    requires admitted { admits checked.now start.now.routine start.now.words ≡ true }
    requires lent { Lends kernel.old.core (entry_slots checked.now start.now.routine) start.now.handles }
    ensures gave { IfSome (option_copied result) (λ outcome.
        Gave D.medium checked.now start.now.routine start.now.words start.now.handles kernel.old kernel.new outcome) }
    ensures within { IfSome (option_copied result) (λ outcome. (f : VmFile) → IsFileOf (D.medium.honest kernel.old.device) kernel.old.core f
        → RanWithin (D.medium.honest kernel.old.device) (Throughout D.medium kernel.old.device kernel.new.device)
        checked.now start.now.routine start.now.words start.now.handles kernel.old.core kernel.new.core outcome f) }
    ensures none { IfNone (option_copied result) (kernel.new ≡ kernel.old) }
{
    let call = RoutineCall {
        checked,
        routine: start.routine,
        words: &start.words,
        handles: &start.handles,
    };
    let Looker {
        alloc,
        look,
        outcome,
    } = looker;
    match look {
        Look::Nothing => Some(run_granted(machine, &call, kernel, &mut Unwatched)),
        _ => match watch_granted(*alloc, machine, &call, kernel, look) {
            Ok(done) => {
                *outcome = Some(done);
                outcome.as_ref()
            }
            Err(_) => None,
        },
    }
}

/// Runs a routine, while one looks on.
pub(crate) fn run_in(
    system: &mut System,
    number: u32,
    routine: u16,
    words: &mut [u16; 8],
    handles: &[u16; 4],
    output: &mut [u16],
    count: &mut u32,
    steps: &mut u32,
    looker: &mut Looker<'_>,
) -> u32
    ensures ends { EndsRun number routine words.old handles.now words.new output.old output.new count.new steps.new result system.old system.new }
    ensures kept { (result ≡ 0 → ⊥) → (words.new ≡ words.old) × (output.new ≡ output.old) }
{
    let System {
        kernel,
        machine,
        images,
        hosted,
    } = system;
    let Some(checked) = image_of(images, number) else {
        return NOT_ADMITTED;
    };
    if !admits(checked, routine, words, handles, kernel) {
        return NOT_ADMITTED;
    }
    if !is_performed(kernel) {
        return PENDING;
    }
    if !make_room(kernel) {
        return status::number(Refusal::Memory);
    }
    // what the file keeps before it
    kernel.memory_is_legal();
    let start = Start {
        routine,
        words: *words,
        handles: *handles,
    };
    let Some(outcome) = run_on(machine, checked, &start, kernel, looker) else {
        return status::number(Refusal::Memory);
    };
    rest(kernel, *hosted);
    *words = outcome.words;
    *steps = outcome.steps;
    *count = outcome.output.len() as u32;
    put_words(outcome.output.as_slice(), output);
    DONE
}

/// Runs a public routine of an image on these words, and writes the words at its return to them. It is lent the blocks of the VM file with these
/// handles, one for each slot that it borrows, and 0 for each other slot: these blocks are locked, and no others of the file. Its first output
/// words are written to `output`; `count` is the number of its output words, `steps` of its instructions. If the run does not begin, `words` and
/// `output` are as before.
#[unsafe(no_mangle)]
pub extern "C" fn takhvoi_run(
    alloc: Global,
    handle: &mut Handle,
    number: u32,
    routine: u16,
    words: &mut [u16; 8],
    handles: &[u16; 4],
    output: &mut [u16],
    count: &mut u32,
    steps: &mut u32,
) -> u32
    ensures served { ServesRun number routine words.old handles.now words.new output.old output.new count.new steps.new result handle.old handle.new }
    ensures kept { (result ≡ 0 → ⊥) → (words.new ≡ words.old) × (output.new ≡ output.old) }
{
    let Some(mut system) = take(alloc, handle) else {
        return NO_KERNEL;
    };
    let status = run_in(
        &mut system,
        number,
        routine,
        words,
        handles,
        output,
        count,
        steps,
        &mut Looker::none(alloc),
    );
    put(handle, system);
    status
}

/// The number of the routine with a name. No two routines of an image have the same.
fn routine_named(image: &Image, name: &[u8]) -> Option<u16>
    ensures some { IfSome result (λ r. IsSomeAnd (slice_get image.now.routines r) (IsNamed name.now)) }
    ensures none { IfNone result (NoneIsNamed name.now image.now) }
{
    for r in 0..image.count() {
        if image.routine(r).name_text() == name {
            return Some(r);
        }
    }
    None
}

fn routine_in(system: &System, number: u32, name: &[u8], routine: &mut u16) -> u32
    ensures { FindsRoutine number name.now routine.new result system.now system.now }
{
    let Some(checked) = image_of(&system.images, number) else {
        return NOT_ADMITTED;
    };
    match routine_named(checked.image(), name) {
        Some(r) => {
            *routine = r;
            DONE
        }
        None => NOT_ADMITTED,
    }
}

/// Writes the number of the routine of an image with a name to `routine`. `NOT_ADMITTED` if there is no such image or routine.
#[unsafe(no_mangle)]
pub extern "C" fn takhvoi_routine(
    alloc: Global,
    handle: &mut Handle,
    number: u32,
    name: &[u8],
    routine: &mut u16,
) -> u32
    ensures { On (FindsRoutine number name.now routine.new result) result handle.old handle.new }
{
    let Some(system) = take(alloc, handle) else {
        return NO_KERNEL;
    };
    let status = routine_in(&system, number, name, routine);
    put(handle, system);
    status
}
