//! What a stop makes of a part of a device.
ghost use Rattle.std.specs.Prelude.{◌≡◌, ℕ, ◌+◌, ◌<◌, ◌≤◌, length, slice_index};
ghost use Rattle.vm_file.specs.Device.{Touched};
ghost use Rattle.cached_device.specs.Stopped.{byte_left, chosen};

/// The bytes of a part.
pub(crate) const PART: usize = 512;

/// What a stop leaves of a part that was written since the last `sync`.
#[derive(Clone, Copy, Drop, PartialEq, Eq)]
pub enum Part {
    /// What lasted before.
    Old,
    /// What was written last.
    New,
    /// Neither.
    Garbage,
}

/// The byte that a stop leaves if it leaves neither the old nor the new byte.
const GARBAGE: u8 = 0xa5;

/// What becomes of a byte that was written.
fn left(part: Option<Part>, old: u8, new: u8) -> u8
    ensures { result ≡ byte_left part old new }
{
    match part {
        Some(Part::New) => new,
        Some(Part::Garbage) => GARBAGE,
        Some(Part::Old) | None => old,
    }
}

/// Sets the `n` bytes from `at` on by the choices, one for each
/// part of the device; without a choice the old bytes stay.
pub(crate) fn leave(bytes: &mut [u8], at: u64, n: u64, new: &[u8], parts: &[Part])
    ensures touched { Touched at n bytes.old bytes.new }
    ensures left { (i : ℕ) → at ≤ i → i < at + n → i < length bytes.old → slice_index bytes.new i ≡ chosen parts.now new.now bytes.old i }
{
    let end = at.saturating_add(n).min(bytes.len() as u64) as usize;
    for i in at as usize..end {
        let byte = new.get(i).copied().unwrap_or(bytes[i]);
        bytes[i] = left(parts.get(i / PART).copied(), bytes[i], byte);
    }
}
