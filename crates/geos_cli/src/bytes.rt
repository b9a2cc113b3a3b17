//! The bytes of a chunk of a VM file's block, or of an item, are read or written by calls of the kernel.

ghost use Rattle.std.specs.Prelude.{[], ◌∷◌, ◌≡◌, ◌↔◌, ◌<◌, ◌≤◌, ◌+◌, max, length, IfOk, IfErr, OnOk, Ok, Some, None};
ghost use Rattle.geos_cli.specs.Bytes.{handle_of, Closes, Gets, Measures, Opened, Puts, Resizes, Stores, Writes, IsUnwritten, EndsWithUpdate};
ghost use Rattle.geos_cli.specs.Bytes.{HasMark, IsTooLong, NotOpened, NotPut, NotResized, NotStored};
ghost use Rattle.geos_cli.specs.Script.{Comes, LeadsOn, MarksOne};
ghost use Rattle.geos_calls.specs.Calls as table;
ghost use Rattle.geos_calls.specs.Effects.{Reference};
ghost use Rattle.geos_calls.specs.VmFile.{VmFile};
ghost use Rattle.geos_kernel.specs.Loads.{Loads};
ghost use Rattle.geos_kernel.specs.Spans.{IsStanding, IsWritable, Stands};
ghost use Rattle.geos_kernel.specs.View.{IsFileOf, IsLocked, IsMarked};
ghost use Rattle.geos_machine.specs.Runs.{OpensAsOneOf, Throughout};
ghost use Rattle.geos_terms.specs.Names.{vm};

use crate::lending::{lock, unlock};
use geos_kernel::{Kernel, Span};
use geos_terms::{Name, Refusal};
use std::alloc::{AllocError, Global};
use vm_file::Device;

/// Where bytes lie in a VM file.
#[derive(Clone, Copy)]
pub enum Place {
    /// In the block of the handle, the chunk.
    Chunk(u16, u16),
    /// In the group, the item.
    Item(u16, u16),
}

impl Place {
    /// The handle of the block or the group.
    fn handle(&self) -> u16
        ensures { result ≡ handle_of self.now }
    {
        match self {
            Place::Chunk(h, _) => *h,
            Place::Item(g, _) => *g,
        }
    }
}

/// Opens a chunk of a block, as `open` does.
fn open_chunk<D: Device + Drop>(
    kernel: &mut Kernel<D>,
    h: u16,
    c: u16,
    n: u16,
) -> Result<Span, Refusal>
    ensures opened { IfOk result (Opened D.medium (Place.Chunk h c) n kernel.old kernel.new) }
    ensures refused { IfErr result (λ why. LeadsOn D.medium kernel.old kernel.new (λ allows. NotOpened allows (Place.Chunk h c) n why)) }
    ensures unwritten { IsUnwritten D.medium kernel.old.device kernel.new.device }
{
    lock(kernel, h)?;
    // what a stop leaves before it
    kernel.memory_is_legal();
    match kernel.deref(Name::vm(h), c, n) {
        Ok(span) => Ok(span),
        Err(refusal) => {
            unlock(kernel, h);
            Err(refusal)
        }
    }
}

/// Opens an item of a group, as `open` does.
fn open_item<D: Device + Drop>(
    kernel: &mut Kernel<D>,
    g: u16,
    i: u16,
    n: u16,
) -> Result<Span, Refusal>
    ensures opened { IfOk result (Opened D.medium (Place.Item g i) n kernel.old kernel.new) }
    ensures refused { IfErr result (λ why. LeadsOn D.medium kernel.old kernel.new (λ allows. NotOpened allows (Place.Item g i) n why)) }
    ensures unwritten { IsUnwritten D.medium kernel.old.device kernel.new.device }
{
    // as in `open_chunk`
    kernel.memory_is_legal();
    kernel.ilock(g, i, n)
}

/// Locks the block or the group, and returns a span of at least so many bytes. If it refuses, it leaves the block
/// unlocked.
fn open<D: Device + Drop>(kernel: &mut Kernel<D>, place: Place, n: u16) -> Result<Span, Refusal>
    ensures opened { IfOk result (Opened D.medium place n kernel.old kernel.new) }
    ensures refused { IfErr result (λ why. LeadsOn D.medium kernel.old kernel.new (λ allows. NotOpened allows place n why)) }
    ensures unwritten { IsUnwritten D.medium kernel.old.device kernel.new.device }
{
    match place {
        Place::Chunk(h, c) => open_chunk(kernel, h, c, n),
        Place::Item(g, i) => open_item(kernel, g, i, n),
    }
}

/// Unlocks the block or the group.
fn close<D: Device + Drop>(kernel: &mut Kernel<D>, place: Place)
    requires { IsLocked kernel.old.core (vm (handle_of place)) }
    ensures leads { LeadsOn D.medium kernel.old kernel.new (λ allows. Closes allows place) }
    ensures honest { D.medium.honest kernel.new.device ↔ D.medium.honest kernel.old.device }
    ensures unwritten { IsUnwritten D.medium kernel.old.device kernel.new.device }
{
    unlock(kernel, place.handle());
}

/// How many bytes there are.
fn measure<D: Device + Drop>(kernel: &mut Kernel<D>, place: Place) -> Result<u16, Refusal>
    ensures measured { IfOk result (λ n. LeadsOn D.medium kernel.old kernel.new (λ allows. Measures allows place n)) }
    ensures refused { IfErr result (λ why. LeadsOn D.medium kernel.old kernel.new (λ allows. NotOpened allows place 0 why)) }
    ensures honest { IfOk result (λ _. D.medium.honest kernel.new.device ↔ D.medium.honest kernel.old.device) }
    ensures unwritten { IsUnwritten D.medium kernel.old.device kernel.new.device }
{
    let span = open(kernel, place, 0)?;
    close(kernel, place);
    Ok(span.len)
}

/// Marks a locked block.
fn mark<D: Device + Drop>(kernel: &mut Kernel<D>, h: u16)
    requires { IsLocked kernel.old.core (vm h) }
    ensures leads { LeadsOn D.medium kernel.old kernel.new (λ allows. MarksOne allows h) }
    ensures locked { IsLocked kernel.new.core (vm h) }
    ensures marked { IsMarked kernel.new.core h }
    ensures honest { D.medium.honest kernel.new.device ↔ D.medium.honest kernel.old.device }
    ensures unwritten { IsUnwritten D.medium kernel.old.device kernel.new.device }
{
    // as in `open_chunk`
    kernel.memory_is_legal();
    kernel.vdirty(Name::vm(h));
    kernel.memory_is_legal();
}

/// Gives a chunk of a locked block, which is marked, so many bytes.
fn resize_locked<D: Device + Drop>(
    kernel: &mut Kernel<D>,
    h: u16,
    c: u16,
    n: u16,
) -> Result<(), Refusal>
    requires locked { IsLocked kernel.old.core (vm h) }
    requires marked { IsMarked kernel.old.core h }
    ensures leads { LeadsOn D.medium kernel.old kernel.new (λ allows. Comes allows (table.lrealloc (vm h) c n) result) }
    ensures locked { IsLocked kernel.new.core (vm h) }
    ensures honest { D.medium.honest kernel.new.device ↔ D.medium.honest kernel.old.device }
    ensures unwritten { IsUnwritten D.medium kernel.old.device kernel.new.device }
{
    // as in `open_chunk`
    kernel.memory_is_legal();
    let done = kernel.lrealloc(Name::vm(h), c, n);
    kernel.memory_is_legal();
    done
}

/// Gives a chunk of a block so many bytes, and marks the block.
fn resize_chunk<D: Device + Drop>(
    kernel: &mut Kernel<D>,
    h: u16,
    c: u16,
    n: u16,
) -> Result<(), Refusal>
    ensures leads { OnOk result (LeadsOn D.medium kernel.old kernel.new (λ allows. Resizes allows (Place.Chunk h c) n)) }
    ensures refused { IfErr result (λ why. LeadsOn D.medium kernel.old kernel.new (λ allows. NotResized allows (Place.Chunk h c) n why)) }
    ensures honest { OnOk result (D.medium.honest kernel.new.device ↔ D.medium.honest kernel.old.device) }
    ensures unwritten { IsUnwritten D.medium kernel.old.device kernel.new.device }
{
    lock(kernel, h)?;
    mark(kernel, h);
    let done = resize_locked(kernel, h, c, n);
    unlock(kernel, h);
    done
}

/// Gives an item of a group so many bytes, and marks the group.
fn resize_item<D: Device + Drop>(
    kernel: &mut Kernel<D>,
    g: u16,
    i: u16,
    n: u16,
) -> Result<(), Refusal>
    ensures leads { OnOk result (LeadsOn D.medium kernel.old kernel.new (λ allows. Resizes allows (Place.Item g i) n)) }
    ensures refused { IfErr result (λ why. LeadsOn D.medium kernel.old kernel.new (λ allows. NotResized allows (Place.Item g i) n why)) }
    ensures honest { OnOk result (D.medium.honest kernel.new.device ↔ D.medium.honest kernel.old.device) }
    ensures unwritten { IsUnwritten D.medium kernel.old.device kernel.new.device }
{
    // as in `open_chunk`
    kernel.memory_is_legal();
    kernel.irealloc(g, i, n)
}

/// Gives the chunk or the item so many bytes, and marks its block or group, which stays marked.
fn resize<D: Device + Drop>(kernel: &mut Kernel<D>, place: Place, n: u16) -> Result<(), Refusal>
    ensures leads { OnOk result (LeadsOn D.medium kernel.old kernel.new (λ allows. Resizes allows place n)) }
    ensures refused { IfErr result (λ why. LeadsOn D.medium kernel.old kernel.new (λ allows. NotResized allows place n why)) }
    ensures marked { OnOk result (HasMark D.medium kernel.new (handle_of place)) }
    ensures honest { OnOk result (D.medium.honest kernel.new.device ↔ D.medium.honest kernel.old.device) }
    ensures unwritten { IsUnwritten D.medium kernel.old.device kernel.new.device }
{
    // for a file that the model may know
    kernel.memory_is_legal();
    match place {
        Place::Chunk(h, c) => resize_chunk(kernel, h, c, n),
        Place::Item(g, i) => resize_item(kernel, g, i, n),
    }
}

/// Writes bytes through a span, from an offset on.
fn store<D: Device + Drop>(kernel: &mut Kernel<D>, span: Span, at: u16, bytes: &[u8])
    requires writable { IsWritable kernel.old.core span }
    requires within { at + length bytes.now ≤ span.len }
    ensures leads { (ref : Reference) → Stands kernel.old.core span ref
        → LeadsOn D.medium kernel.old kernel.new (λ allows. Comes allows (table.store ref at bytes.now) (Ok tt)) }
    ensures stands { (ref : Reference) → Stands kernel.old.core span ref → Stands kernel.new.core span ref }
    ensures honest { D.medium.honest kernel.new.device ↔ D.medium.honest kernel.old.device }
    ensures unwritten { IsUnwritten D.medium kernel.old.device kernel.new.device }
{
    // as in `open_chunk`
    kernel.memory_is_legal();
    kernel.store(span, at, bytes);
}

/// Writes bytes over those of a place, whose block or group is marked, from an offset on; they are within it up to `end`.
fn write<D: Device + Drop>(
    kernel: &mut Kernel<D>,
    place: Place,
    at: u16,
    end: u16,
    bytes: &[u8],
) -> Result<(), Refusal>
    requires end { end ≡ at + length bytes.now }
    requires marked { HasMark D.medium kernel.old (handle_of place) }
    ensures written { OnOk result (LeadsOn D.medium kernel.old kernel.new (λ allows. Writes allows place at bytes.now)) }
    ensures refused { IfErr result (λ why. LeadsOn D.medium kernel.old kernel.new
        (λ allows. NotOpened allows place (at + length bytes.now) why)) }
    ensures unwritten { IsUnwritten D.medium kernel.old.device kernel.new.device }
{
    let span = open(kernel, place, end)?;
    store(kernel, span, at, bytes);
    close(kernel, place);
    Ok(())
}

/// Where bytes from an offset on end; `TooBig` if no chunk is so long.
fn end_of(at: u16, n: usize) -> Result<u16, Refusal>
    ensures end { IfOk result (λ end. end ≡ at + n) }
    ensures refused { IfErr result (λ why. IsTooLong why (at + n)) }
{
    if n > usize::from(u16::MAX - at) {
        return Err(Refusal::TooBig);
    }
    Ok(at + n as u16)
}

fn greater(a: u16, b: u16) -> u16
    ensures { result ≡ max a b }
{
    if a < b { b } else { a }
}

/// Gives a place as many bytes as those end at that are stored from an offset on, or `least` if that is more, and stores them.
fn resize_and_write<D: Device + Drop>(
    kernel: &mut Kernel<D>,
    place: Place,
    at: u16,
    least: u16,
    bytes: &[u8],
) -> Result<(), Refusal>
    ensures stored { OnOk result (LeadsOn D.medium kernel.old kernel.new (λ allows. Stores allows place at least bytes.now)) }
    ensures refused { IfErr result (λ why. LeadsOn D.medium kernel.old kernel.new (λ allows. NotStored allows place at least bytes.now why)) }
    ensures unwritten { IsUnwritten D.medium kernel.old.device kernel.new.device }
{
    // as in `open_chunk`
    kernel.memory_is_legal();
    let end = end_of(at, bytes.len())?;
    resize(kernel, place, greater(end, least))?;
    write(kernel, place, at, end, bytes)
}

/// Puts bytes over those from an offset on, and updates nothing.
fn put_over<D: Device + Drop>(
    kernel: &mut Kernel<D>,
    place: Place,
    at: u16,
    bytes: &[u8],
) -> Result<(), Refusal>
    ensures put { OnOk result (LeadsOn D.medium kernel.old kernel.new (λ allows. Puts allows place (Some at) bytes.now)) }
    ensures refused { IfErr result (λ why. LeadsOn D.medium kernel.old kernel.new (λ allows. NotPut allows place (Some at) bytes.now why)) }
    ensures unwritten { IsUnwritten D.medium kernel.old.device kernel.new.device }
{
    let least = measure(kernel, place)?;
    resize_and_write(kernel, place, at, least, bytes)
}

/// Puts the bytes there, as `put_bytes` does, and updates nothing.
fn put<D: Device + Drop>(
    kernel: &mut Kernel<D>,
    place: Place,
    at: Option<u16>,
    bytes: &[u8],
) -> Result<(), Refusal>
    ensures put { OnOk result (LeadsOn D.medium kernel.old kernel.new (λ allows. Puts allows place at bytes.now)) }
    ensures refused { IfErr result (λ why. LeadsOn D.medium kernel.old kernel.new (λ allows. NotPut allows place at bytes.now why)) }
    ensures unwritten { IsUnwritten D.medium kernel.old.device kernel.new.device }
{
    match at {
        None => resize_and_write(kernel, place, 0, 0, bytes),
        Some(at) => put_over(kernel, place, at, bytes),
    }
}

/// Replaces the bytes of a chunk or an item, or overwrites some of them from an offset on, which may make it longer; then updates the VM
/// file. The refusals are those of the kernel's calls: `BadHandle`, `Reserved`, `BadChunk`, `TooBig`, `NoRoom`, `Disk` and those of a
/// commit, and `Locked` if a block of the file is locked. If a step before the update is refused, nothing was written to the device.
pub fn put_bytes<D: Device + Drop>(
    kernel: &mut Kernel<D>,
    place: Place,
    at: Option<u16>,
    bytes: &[u8],
) -> Result<(), Refusal>
    // What is updated are the blocks as they were, with these bytes there: as the model's calls leave them. A refusal is that of a call
    // which the model refuses too.
    ensures ends { EndsWithUpdate D.medium place at bytes.now kernel.old kernel.new result }
    // A stop at any moment leaves the file as before or as after.
    ensures stops { (f g : VmFile) → IsFileOf (D.medium.honest kernel.old.device) kernel.old.core f
        → IsFileOf (D.medium.honest kernel.old.device) kernel.new.core g
        → D.medium.honest kernel.old.device → Throughout D.medium kernel.old.device kernel.new.device (OpensAsOneOf (f.kept ∷ g.kept ∷ [])) }
{
    put(kernel, place, at, bytes)?;
    if !kernel.vm_unlocked() {
        return Err(Refusal::Locked);
    }
    kernel.vupdate()
}

/// The bytes of a span.
fn load<D: Device + Drop>(
    alloc: Global,
    kernel: &Kernel<D>,
    span: Span,
) -> Result<Vec<u8>, AllocError>
    requires { IsStanding kernel.now.core span }
    ensures loads { IfOk result (λ bytes. Loads (D.medium.honest kernel.now.device) span 0 bytes.items kernel.now.core) }
    ensures long { IfOk result (λ bytes. length bytes.items ≡ span.len) }
{
    let mut bytes = vec![in alloc; 0; usize::from(span.len)]?;
    kernel.read(span, 0, &mut bytes);
    Ok(bytes)
}

/// The bytes of a chunk or an item. The refusals are those of the kernel's calls. Nothing is written to the device.
pub fn get_bytes<D: Device + Drop>(
    alloc: Global,
    kernel: &mut Kernel<D>,
    place: Place,
) -> Result<Result<Vec<u8>, Refusal>, AllocError>
    // They are those that the model has there while it is locked, all of them; and it is unlocked again.
    ensures got { IfOk result (λ got. IfOk got (λ bytes. LeadsOn D.medium kernel.old kernel.new (λ allows. Gets allows place bytes.items))) }
    // A refusal is that of the model's calls, too.
    ensures refused { IfOk result (λ got. IfErr got (λ why. LeadsOn D.medium kernel.old kernel.new (λ allows. NotOpened allows place 0 why))) }
    ensures unwritten { IsUnwritten D.medium kernel.old.device kernel.new.device }
{
    match open(kernel, place, 0) {
        Ok(span) => {
            // as in `open_chunk`
            kernel.memory_is_legal();
            let bytes = load(alloc, kernel, span);
            close(kernel, place);
            Ok(Ok(bytes?))
        }
        Err(refusal) => Ok(Err(refusal)),
    }
}
