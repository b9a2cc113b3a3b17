//! The items of the lines `in` and `out`.

ghost use Rattle.std.specs.Prelude.{◌≡◌, ◌<◌, IfSome, codes};
ghost use Rattle.geos_text.specs.Words.{words};
ghost use Rattle.geos_source.specs.Items.{behind, bound_item, slot_state_of, pair_place, pair_of};
ghost use Rattle.geos_source.specs.Items.{pair_item, slot_item, pointer_item, item, row_of};

use crate::fault::{Why, least};
use crate::operands::short;
use geos_image::{Pointer, Row, SlotState};
use geos_text::{first_word, register};

/// `w0<=9`: a word's bound.
fn bound_item(mut row: Row, w: u8, rest: &[u8]) -> Result<Row, Why>
    requires { w < 8 }
    ensures { result ≡ bound_item row w (behind (codes "<=") rest.now) }
{
    let Some(digits) = rest.strip_prefix(b"<=") else {
        return Err(Why::WrongOperands);
    };
    match short(65_535, digits) {
        Ok(bound) => {
            row.bounds[usize::from(w)] = bound;
            Ok(row)
        }
        Err(why) => Err(why),
    }
}

/// What a slot holds.
fn slot_state_of(word: &[u8]) -> Option<SlotState>
    ensures { result ≡ slot_state_of word.now }
{
    match word {
        b"mem" => Some(SlotState::Mem),
        b"vm" => Some(SlotState::Vm {
            marked: false,
            borrowed: false,
        }),
        b"vm!" => Some(SlotState::Vm {
            marked: true,
            borrowed: false,
        }),
        b"vm@" => Some(SlotState::Vm {
            marked: false,
            borrowed: true,
        }),
        b"vm@!" => Some(SlotState::Vm {
            marked: true,
            borrowed: true,
        }),
        b"db" => Some(SlotState::Db { marked: false }),
        b"db!" => Some(SlotState::Db { marked: true }),
        _ => None,
    }
}

/// The place of the pair of two different slots, in either order, among the six.
fn pair_of(s: u8, t: u8) -> Option<u8>
    requires s { s < 4 }
    requires t { t < 4 }
    ensures value { result ≡ pair_of s t }
    ensures within { IfSome result (λ pair. pair < 6) }
{
    if s < t {
        Some(pair_place(s, t))
    } else if t < s {
        Some(pair_place(t, s))
    } else {
        None
    }
}

fn pair_place(low: u8, high: u8) -> u8
    requires ordered { low < high }
    requires within { high < 4 }
    ensures value { result ≡ pair_place low high }
    ensures within { result < 6 }
{
    match low {
        0 => high - 1,
        1 => high + 1,
        _ => 5,
    }
}

/// `s0#s1`: two slots that hold different blocks.
fn pair_item(mut row: Row, s: u8, rest: &[u8]) -> Result<Row, Why>
    requires { s < 4 }
    ensures { result ≡ pair_item row s (behind (codes "#") rest.now) }
{
    let Some(word) = rest.strip_prefix(b"#") else {
        return Err(Why::WrongOperands);
    };
    let Some(t) = register(b's', 4, word) else {
        return Err(Why::WrongOperands);
    };
    let Some(pair) = pair_of(s, t) else {
        return Err(Why::WrongOperands);
    };
    row.pairs[usize::from(pair)] = true;
    Ok(row)
}

/// `s0=mem`: what a slot holds; or `s0#s1`.
fn slot_item(mut row: Row, s: u8, rest: &[u8]) -> Result<Row, Why>
    requires { s < 4 }
    ensures { result ≡ slot_item row s rest.now (behind (codes "=") rest.now) }
{
    let Some(word) = rest.strip_prefix(b"=") else {
        return pair_item(row, s, rest);
    };
    let Some(state) = slot_state_of(word) else {
        return Err(Why::WrongOperands);
    };
    row.slots[usize::from(s)] = state;
    Ok(row)
}

/// `p0=s0:8`: the slot that a pointer leads into, and its least length.
fn pointer_item(mut row: Row, p: u8, rest: &[u8]) -> Result<Row, Why>
    requires { p < 4 }
    ensures { result ≡ pointer_item row p (behind (codes "=") rest.now) }
{
    let Some(word) = rest.strip_prefix(b"=") else {
        return Err(Why::WrongOperands);
    };
    let (front, back) = word.split_at(word.len().min(2));
    let Some(slot) = register(b's', 4, front) else {
        return Err(Why::WrongOperands);
    };
    let Some(digits) = back.strip_prefix(b":") else {
        return Err(Why::WrongOperands);
    };
    match short(65_535, digits) {
        Ok(least) => {
            row.pointers[usize::from(p)] = Some(Pointer { slot, least });
            Ok(row)
        }
        Err(why) => Err(why),
    }
}

/// The row with what an item says of it.
#[tactic(auto, unfolding(crate::specs::Items::item))]
fn item(row: Row, word: &[u8]) -> Result<Row, Why>
    ensures { result ≡ item row word.now }
{
    let (front, rest) = word.split_at(word.len().min(2));
    if let Some(w) = register(b'w', 8, front) {
        bound_item(row, w, rest)
    } else if let Some(s) = register(b's', 4, front) {
        slot_item(row, s, rest)
    } else if let Some(p) = register(b'p', 4, front) {
        pointer_item(row, p, rest)
    } else {
        Err(Why::WrongOperands)
    }
}

/// The row that the items of a line say; of two for one field the later counts. The least fault
/// among the items, if there is one.
#[tactic(auto, unfolding(crate::specs::Items::row_of))]
pub(crate) fn row_of(items: &[u8]) -> Result<Row, Why>
    ensures { result ≡ row_of (words items.now) }
{
    let mut row = Row::open();
    let mut fault = None;
    let mut rest = items;
    while let Some((word, behind)) = first_word(rest) {
        match item(row, word) {
            Ok(changed) => row = changed,
            Err(why) => fault = least(fault, Some(why)),
        }
        rest = behind;
    }
    match fault {
        None => Ok(row),
        Some(why) => Err(why),
    }
}
