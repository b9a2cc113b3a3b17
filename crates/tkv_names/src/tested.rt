//! Comparisons of a source, beside the instructions that test words.

ghost use Rattle.std.specs.Prelude.{◌≡◌, ◌<◌, if◌then◌else◌, IfSome, ℕ, List, Some, slice_get, slice_index};
ghost use Rattle.geos_opcodes.specs.declared.opcode.Opcode.TheVariants as op;
ghost use Rattle.tkv_syntax.specs.declared.item.ItemKind.TheVariants as kind;
ghost use Rattle.tkv_names.specs.Named.{holds};
ghost use Rattle.tkv_names.specs.Seen.{Leads, Sound, Decides, Compares, Limits, IsBranch, IsFork, leaves_if, agreed};

use crate::check::Check;
use crate::seen::{Known, Seen};
use crate::ways::Fork;
use geos_image::Instr;
use geos_opcodes::Opcode;
use tkv_syntax::Item;

/// What is known where control continues after a test, and where it goes to the target of the test.
#[derive(Clone, Copy)]
pub(crate) struct Branches {
    pub stays: Seen,
    pub leaves: Seen,
}

/// An instruction that compares two registers, and whether it goes to its target if the comparison holds.
#[derive(Clone, Copy)]
struct Comparing {
    opcode: Opcode,
    a: u8,
    b: u8,
    same: bool,
}

/// A number that a word is above if a comparison holds, or only if it does not.
#[derive(Clone, Copy)]
struct Bound {
    most: u16,
    same: bool,
}

/// The instruction for a comparison of the words in two registers.
fn comparison_of(test: u32, left: u8, right: u8) -> Option<Comparing>
    ensures { IfSome result (λ one. Compares test left right one.opcode one.a one.b one.same) }
{
    match test {
        0 => Some(Comparing {
            opcode: Opcode::Beq,
            a: left,
            b: right,
            same: true,
        }),
        1 => Some(Comparing {
            opcode: Opcode::Beq,
            a: left,
            b: right,
            same: false,
        }),
        2 => Some(Comparing {
            opcode: Opcode::Blt,
            a: left,
            b: right,
            same: true,
        }),
        3 => Some(Comparing {
            opcode: Opcode::Blt,
            a: left,
            b: right,
            same: false,
        }),
        4 => Some(Comparing {
            opcode: Opcode::Blt,
            a: right,
            b: left,
            same: true,
        }),
        5 => Some(Comparing {
            opcode: Opcode::Blt,
            a: right,
            b: left,
            same: false,
        }),
        _ => None,
    }
}

/// The bound for a comparison of a word and a number.
fn limit(test: u32, number: u16) -> Option<Bound>
    ensures { IfSome result (λ one. Limits test number one.most one.same) }
{
    match test {
        4 => Some(Bound {
            most: number,
            same: true,
        }),
        5 => Some(Bound {
            most: number,
            same: false,
        }),
        2 => Some(Bound {
            most: number.checked_sub(1)?,
            same: false,
        }),
        3 => Some(Bound {
            most: number.checked_sub(1)?,
            same: true,
        }),
        _ => None,
    }
}

/// The same for a comparison with 0.
fn nil_limit(test: u32) -> Option<Bound>
    ensures { IfSome result (λ one. Limits test 0 one.most one.same) }
{
    match test {
        0 => Some(Bound {
            most: 0,
            same: false,
        }),
        1 => Some(Bound {
            most: 0,
            same: true,
        }),
        _ => None,
    }
}

/// A comparison with its sides turned round.
fn turned(test: u32) -> Option<u32>
    ensures { IfSome result (λ other. (x y : ℕ) → holds test x y ≡ holds other y x) }
{
    match test {
        0 => Some(0),
        1 => Some(1),
        2 => Some(4),
        3 => Some(5),
        4 => Some(2),
        5 => Some(3),
        _ => None,
    }
}

/// Whether an instruction goes to its target if a comparison of the words in two registers holds; otherwise, only if it does not.
fn compares(test: u32, instr: Instr, left: u8, right: u8) -> Option<bool>
    ensures { IfSome result (λ same. IsBranch instr.opcode × ((words : List ℕ)
        → leaves_if instr.opcode instr words ≡ agreed same (holds test (slice_index words left) (slice_index words right)))) }
{
    let one = comparison_of(test, left, right)?;
    if instr.opcode != one.opcode || instr.a != one.a || instr.b != one.b {
        return None;
    }
    Some(one.same)
}

/// The same for a bound of a word.
fn bounds(limit: Bound, instr: Instr, register: u8) -> Option<bool>
    ensures { IfSome result (λ same. (instr.opcode ≡ op.Chk) × (instr.a ≡ register) × (instr.imm ≡ limit.most) × (same ≡ limit.same)) }
{
    if instr.opcode != Opcode::Chk || instr.a != register || instr.imm != limit.most {
        return None;
    }
    Some(limit.same)
}

/// The bound for a comparison of a word and a number, which may be 0.
fn limit_of(test: u32, number: u16) -> Option<Bound>
    ensures { IfSome result (λ one. Limits test number one.most one.same) }
{
    if number == 0 {
        match nil_limit(test) {
            Some(one) => return Some(one),
            None => {}
        }
    }
    limit(test, number)
}

/// Whether an instruction goes to its target if a comparison of the last two values holds; otherwise, only if it does not.
fn decides(test: u32, seen: Seen, instr: Instr) -> Option<bool>
    ensures { IfSome result (λ same. Decides test seen instr same) }
{
    match (seen.second, seen.first) {
        (Known::Register(left), Known::Register(right)) => compares(test, instr, left, right),
        (Known::Register(word), Known::Constant(number)) => {
            bounds(limit_of(test, number)?, instr, word)
        }
        (Known::Constant(number), Known::Register(word)) => {
            bounds(limit_of(turned(test)?, number)?, instr, word)
        }
        _ => None,
    }
}

/// The first of two items, or the second one.
fn chosen(first: bool, one: usize, other: usize) -> usize
    ensures { result ≡ (if first then one else other) }
{
    if first { one } else { other }
}

impl Check<'_> {
    /// Whether the placed item loads a constant.
    fn is_load(&self, index: usize) -> bool {
        match self.placed.get(index) {
            Some(item) => item.instr.opcode == Opcode::Ldi,
            None => false,
        }
    }

    /// The value before the last one, a constant, is loaded if an instruction does that.
    fn left_ready(&self, seen: Seen) -> Option<Seen>
        ensures { IfSome result (λ next. (next.item ≡ seen.item)
            × Leads self.now.text.now self.now.items.now self.now.placed.now seen next) }
    {
        match seen.second {
            Known::Constant(number) => {
                if self.is_load(seen.placed) {
                    self.second_loaded(seen, number)
                } else {
                    Some(seen)
                }
            }
            _ => Some(seen),
        }
    }

    /// The last value, a constant, is loaded if an instruction does that.
    fn right_ready(&self, seen: Seen) -> Option<Seen>
        ensures { IfSome result (λ next. (next.item ≡ seen.item)
            × Leads self.now.text.now self.now.items.now self.now.placed.now seen next) }
    {
        match seen.first {
            Known::Constant(number) => {
                if self.is_load(seen.placed) {
                    self.loaded(seen, number)
                } else {
                    Some(seen)
                }
            }
            _ => Some(seen),
        }
    }

    /// What is known after a test whose values are ready, if its instruction goes to its target if the comparison holds, or only if it does not.
    fn branches(&self, seen: Seen, fork: Fork, same: bool) -> Option<Branches>
        ensures { (item : Item) → slice_get self.now.items.now seen.item ≡ Some item → item.kind ≡ kind.Test → item.a < 6
            → IsFork self.now.placed.now seen.placed seen.level fork.instr fork.target.index fork.target.level
            → Decides item.a seen fork.instr same
            → IfSome result (λ next. Sound self.now.text.now self.now.items.now self.now.placed.now next.stays
            → Sound self.now.text.now self.now.items.now self.now.placed.now next.leaves
            → Sound self.now.text.now self.now.items.now self.now.placed.now seen) }
    {
        let next = seen.item.checked_add(1)?;
        let past = self.part_end(next)?;
        let placed = seen.placed.checked_add(1)?;
        let bare = seen.popped().popped();
        Some(Branches {
            stays: Seen {
                item: chosen(same, past, next),
                placed,
                ..bare
            },
            leaves: Seen {
                item: chosen(same, next, past),
                placed: fork.target.index,
                level: fork.target.level,
                ..bare
            },
        })
    }

    /// What is known after a test whose values are ready.
    fn decided(&self, seen: Seen, item: &Item) -> Option<Branches>
        ensures { slice_get self.now.items.now seen.item ≡ Some item.now → item.now.kind ≡ kind.Test
            → IfSome result (λ next. Sound self.now.text.now self.now.items.now self.now.placed.now next.stays
            → Sound self.now.text.now self.now.items.now self.now.placed.now next.leaves
            → Sound self.now.text.now self.now.items.now self.now.placed.now seen) }
    {
        if item.a > 5 {
            return None;
        }
        let fork = self.fork_at(&seen)?;
        let same = decides(item.a, seen, fork.instr)?;
        self.branches(seen, fork, same)
    }

    /// What is known after a test.
    pub(crate) fn tested(&self, seen: Seen, item: &Item) -> Option<Branches>
        ensures { slice_get self.now.items.now seen.item ≡ Some item.now → item.now.kind ≡ kind.Test
            → IfSome result (λ next. Sound self.now.text.now self.now.items.now self.now.placed.now next.stays
            → Sound self.now.text.now self.now.items.now self.now.placed.now next.leaves
            → Sound self.now.text.now self.now.items.now self.now.placed.now seen) }
    {
        let left = self.left_ready(seen)?;
        let both = self.right_ready(left)?;
        let ready = self.settled(both);
        self.decided(ready, item)
    }
}
