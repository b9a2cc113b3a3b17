//! Which names' words registers have.

ghost use Rattle.std.specs.Prelude.{◌≡◌, ◌<◌, ◌≤◌, IfSome, slice_get};
ghost use Rattle.tkv_names.specs.Seen.{HasName, is_name, Clears, Cleared, Renames, KeepsOne, KeepsBelow};

use crate::name::same_name;

/// Whether a register has the word of a name.
fn has_name(text: &[u8], held: &[Option<u32>], register: usize, at: u32) -> bool
    ensures { result ≡ is_name text.now (slice_get held.now register) at }
{
    match held.get(register) {
        Some(name) => match name {
            Some(name) => same_name(text, *name, at),
            None => false,
        },
        None => false,
    }
}

/// A register that has the word of a name.
pub(crate) fn register_of(text: &[u8], held: &[Option<u32>], at: u32) -> Option<u8>
    ensures { IfSome result (λ r. HasName text.now held.now at r) }
{
    for register in 0..8 {
        if has_name(text, held, register, at) {
            return Some(register as u8);
        }
    }
    None
}

/// A register does not have the word of a name any more.
fn cleared(text: &[u8], held: [Option<u32>; 8], register: usize, at: u32) -> [Option<u32>; 8]
    requires { register < 8 }
    ensures { Clears text.now held at register result }
{
    if has_name(text, &held, register, at) {
        let mut left = held;
        left[register] = None;
        return left;
    }
    held
}

/// The registers below one do not have the word of a name any more.
fn forgotten(text: &[u8], held: [Option<u32>; 8], at: u32, below: usize) -> [Option<u32>; 8]
    requires { below ≤ 8 }
    ensures { Cleared text.now held at below result }
{
    if below == 0 {
        return held;
    }
    let left = forgotten(text, held, at, below - 1);
    cleared(text, left, below - 1, at)
}

/// A name stands for the word in a register from here on.
pub(crate) fn renamed(
    text: &[u8],
    held: [Option<u32>; 8],
    at: u32,
    register: u8,
) -> [Option<u32>; 8]
    requires { register < 8 }
    ensures { Renames text.now held at register result }
{
    let mut left = forgotten(text, held, at, 8);
    left[register as usize] = Some(at);
    left
}

/// A register has the word of a name only if it has the word of the same name in another list.
fn kept(
    text: &[u8],
    held: [Option<u32>; 8],
    other: &[Option<u32>],
    register: usize,
) -> [Option<u32>; 8]
    requires { register < 8 }
    ensures { KeepsOne text.now held other.now register result }
{
    match held[register] {
        Some(at) => {
            if has_name(text, other, register, at) {
                return held;
            }
        }
        None => return held,
    }
    let mut left = held;
    left[register] = None;
    left
}

/// The registers below one have the words of names only if they have them in another list, too.
pub(crate) fn shared(
    text: &[u8],
    held: [Option<u32>; 8],
    other: &[Option<u32>],
    below: usize,
) -> [Option<u32>; 8]
    requires { below ≤ 8 }
    ensures { KeepsBelow text.now held other.now below result }
{
    if below == 0 {
        return held;
    }
    let left = shared(text, held, other, below - 1);
    kept(text, left, other, below - 1)
}
