//! The items of a source, one after another, beside the placed items that do what they say.

ghost use Rattle.std.specs.Prelude.{◌≡◌, IsTrue, IfSome, Some, slice_get};
ghost use Rattle.tkv_syntax.specs.declared.item.ItemKind.TheVariants as kind;
ghost use Rattle.tkv_names.specs.declared.seen.Known.TheVariants as what;
ghost use Rattle.tkv_names.specs.Seen.{Leads, Sound, IsDone, IsOut, OnWords, OnBoth, IsBeside, IsSetting, IsPassed, IsPart, IsOver};

use crate::held::{register_of, renamed};
use crate::joined::{commutes, folded, immediate};
use crate::seen::{Known, Seen};
use geos_image::Instr;
use geos_opcodes::Opcode;
use tkv_places::{Placed, PlacedKind};
use tkv_syntax::{Item, ItemKind};

/// A source, with the items that it writes, and a placed routine without its return.
#[derive(Clone, Copy)]
pub(crate) struct Check<'t> {
    pub text: &'t [u8],
    pub items: &'t [Item],
    pub placed: &'t [Placed],
}

impl Check<'_> {
    /// The next placed instruction, if control continues after it.
    fn done_at(&self, seen: &Seen) -> Option<Instr>
        ensures { IfSome result (λ instr. IsDone self.now.placed.now seen.now.placed seen.now.level instr) }
    {
        match self.placed.get(seen.placed) {
            Some(item) => match item.kind {
                PlacedKind::Do => {
                    if item.to == u16::MAX && seen.level <= 65_535 {
                        Some(item.instr)
                    } else {
                        None
                    }
                }
                _ => None,
            },
            None => None,
        }
    }

    /// The last value, a constant, is loaded into a register.
    pub(crate) fn loaded(&self, seen: Seen, number: u16) -> Option<Seen>
        ensures { seen.first ≡ what.Constant number → IfSome result (λ next. (next.item ≡ seen.item)
            × Leads self.now.text.now self.now.items.now self.now.placed.now seen next) }
    {
        let instr = self.done_at(&seen)?;
        if instr.opcode != Opcode::Ldi || instr.imm != number {
            return None;
        }
        let next = seen.written(instr.a)?;
        Some(Seen {
            first: Known::Register(instr.a),
            ..next
        })
    }

    /// The value before the last one, a constant, is loaded into a register.
    pub(crate) fn second_loaded(&self, seen: Seen, number: u16) -> Option<Seen>
        ensures { seen.second ≡ what.Constant number → IfSome result (λ next. (next.item ≡ seen.item)
            × Leads self.now.text.now self.now.items.now self.now.placed.now seen next) }
    {
        let instr = self.done_at(&seen)?;
        if instr.opcode != Opcode::Ldi || instr.imm != number {
            return None;
        }
        let next = seen.written(instr.a)?;
        Some(Seen {
            second: Known::Register(instr.a),
            ..next
        })
    }

    /// The last value is in a register.
    fn in_register(&self, seen: Seen) -> Option<Seen>
        ensures { IfSome result (λ next. (next.item ≡ seen.item)
            × Leads self.now.text.now self.now.items.now self.now.placed.now seen next) }
    {
        match seen.first {
            Known::Constant(number) => self.loaded(seen, number),
            Known::Register(_) => Some(seen),
            Known::Nothing => None,
        }
    }

    /// The value before the last one is in a register.
    fn second_in_register(&self, seen: Seen) -> Option<Seen>
        ensures { IfSome result (λ next. (next.item ≡ seen.item)
            × Leads self.now.text.now self.now.items.now self.now.placed.now seen next) }
    {
        match seen.second {
            Known::Constant(number) => self.second_loaded(seen, number),
            Known::Register(_) => Some(seen),
            Known::Nothing => None,
        }
    }

    /// After an instruction that joins the last two values, which are in registers.
    fn on_words(&self, seen: Seen, opcode: Opcode) -> Option<Seen>
        ensures { IfSome result (λ next. OnWords self.now.placed.now opcode seen next) }
    {
        let instr = self.done_at(&seen)?;
        let (Known::Register(left), Known::Register(right)) = (seen.second, seen.first) else {
            return None;
        };
        if instr.opcode != opcode || instr.b != left || instr.c != right {
            return None;
        }
        let bare = seen.popped().popped().written(instr.a)?;
        bare.pushed(Known::Register(instr.a))
    }

    /// After an instruction that joins the last two values, a register and a constant.
    fn on_constant(&self, seen: Seen, item: &Item, register: u8, number: u16) -> Option<Seen>
        ensures { slice_get self.now.items.now seen.item ≡ Some item.now → IsBeside item.now.kind seen register number
            → IfSome result (λ next. Leads self.now.text.now self.now.items.now self.now.placed.now seen next) }
    {
        let by = immediate(item.kind, number)?;
        let (opcode, imm) = by;
        let instr = self.done_at(&seen)?;
        if instr.opcode != opcode || instr.b != register || instr.imm != imm {
            return None;
        }
        let bare = seen.popped().popped().written(instr.a)?;
        bare.pushed(Known::Register(instr.a))
    }

    /// After an instruction that joins the last two values. Constants are loaded before it.
    fn on_both(&self, seen: Seen, opcode: Opcode) -> Option<Seen>
        ensures { IfSome result (λ next. OnBoth self.now.text.now self.now.items.now self.now.placed.now opcode seen next) }
    {
        let left = self.second_in_register(seen)?;
        let both = self.in_register(left)?;
        self.on_words(both, opcode)
    }

    /// After a sum.
    fn sum(&self, seen: Seen, item: &Item) -> Option<Seen>
        ensures { slice_get self.now.items.now seen.item ≡ Some item.now → item.now.kind ≡ kind.Add
            → IfSome result (λ next. Leads self.now.text.now self.now.items.now self.now.placed.now seen next) }
    {
        self.on_both(seen, Opcode::Add)
    }

    /// After a difference.
    fn difference(&self, seen: Seen, item: &Item) -> Option<Seen>
        ensures { slice_get self.now.items.now seen.item ≡ Some item.now → item.now.kind ≡ kind.Sub
            → IfSome result (λ next. Leads self.now.text.now self.now.items.now self.now.placed.now seen next) }
    {
        self.on_both(seen, Opcode::Sub)
    }

    /// After an operation on a register and a constant.
    fn beside(&self, seen: Seen, item: &Item) -> Option<Seen>
        ensures { slice_get self.now.items.now seen.item ≡ Some item.now
            → IfSome result (λ next. Leads self.now.text.now self.now.items.now self.now.placed.now seen next) }
    {
        match (seen.second, seen.first) {
            (Known::Register(register), Known::Constant(number)) => {
                self.on_constant(seen, item, register, number)
            }
            (Known::Constant(number), Known::Register(register)) if commutes(item.kind) => {
                self.on_constant(seen, item, register, number)
            }
            _ => None,
        }
    }

    /// After an operation on two constants.
    fn folded(&self, seen: Seen, item: &Item, left: u16, right: u16) -> Option<Seen>
        ensures { slice_get self.now.items.now seen.item ≡ Some item.now → seen.second ≡ what.Constant left → seen.first ≡ what.Constant right
            → IfSome result (λ next. Leads self.now.text.now self.now.items.now self.now.placed.now seen next) }
    {
        let word = folded(item.kind, left, right)?;
        seen.popped().popped().pushed(Known::Constant(word))
    }

    /// After an operation, at most one of whose operands is a constant.
    fn on_word(&self, seen: Seen, item: &Item) -> Option<Seen>
        ensures { slice_get self.now.items.now seen.item ≡ Some item.now
            → IfSome result (λ next. Leads self.now.text.now self.now.items.now self.now.placed.now seen next) }
    {
        match item.kind {
            ItemKind::Add => self.sum(seen, item),
            ItemKind::Sub => self.difference(seen, item),
            _ => self.beside(seen, item),
        }
    }

    /// After an operation.
    fn operation(&self, seen: Seen, item: &Item) -> Option<Seen>
        ensures { slice_get self.now.items.now seen.item ≡ Some item.now
            → IfSome result (λ next. Leads self.now.text.now self.now.items.now self.now.placed.now seen next) }
    {
        match (seen.second, seen.first) {
            (Known::Constant(left), Known::Constant(right)) => self.folded(seen, item, left, right),
            _ => self.on_word(seen, item),
        }
    }

    /// After a name whose word a register has.
    fn named(&self, seen: Seen, item: &Item) -> Option<Seen>
        ensures { slice_get self.now.items.now seen.item ≡ Some item.now → item.now.kind ≡ kind.Named
            → IfSome result (λ next. Leads self.now.text.now self.now.items.now self.now.placed.now seen next) }
    {
        let register = register_of(self.text, &seen.held, item.at)?;
        seen.pushed(Known::Register(register))
    }

    /// The last value, a register, is moved to another one, if an instruction of this place of the source does that.
    fn moved(&self, seen: Seen, register: u8, at: u32) -> Option<Seen>
        ensures { seen.first ≡ what.Register register → IfSome result (λ next. (next.item ≡ seen.item)
            × Leads self.now.text.now self.now.items.now self.now.placed.now seen next) }
    {
        match self.placed.get(seen.placed) {
            Some(item) => {
                if item.instr.opcode != Opcode::Mov || item.at != at {
                    return Some(seen);
                }
            }
            None => return Some(seen),
        }
        let instr = self.done_at(&seen)?;
        if instr.opcode != Opcode::Mov || instr.b != register {
            return None;
        }
        let next = seen.written(instr.a)?;
        Some(Seen {
            first: Known::Register(instr.a),
            ..next
        })
    }

    /// The last value is in the register that a name is to have.
    fn placed_value(&self, seen: Seen, at: u32) -> Option<Seen>
        ensures { IfSome result (λ next. (next.item ≡ seen.item)
            × Leads self.now.text.now self.now.items.now self.now.placed.now seen next) }
    {
        match seen.first {
            Known::Constant(number) => self.loaded(seen, number),
            Known::Register(register) => self.moved(seen, register, at),
            Known::Nothing => None,
        }
    }

    /// After a name is set to the last value, which is in a register.
    fn bound(&self, seen: Seen, item: &Item) -> Option<Seen>
        ensures { slice_get self.now.items.now seen.item ≡ Some item.now → IsSetting item.now
            → IfSome result (λ next. Leads self.now.text.now self.now.items.now self.now.placed.now seen next) }
    {
        match seen.first {
            Known::Register(register) => {
                if register >= 8 {
                    return None;
                }
                let held = renamed(self.text, seen.held, item.at, register);
                match seen.item.checked_add(1) {
                    Some(next) => Some(Seen {
                        item: next,
                        held,
                        ..seen.popped()
                    }),
                    None => None,
                }
            }
            _ => None,
        }
    }

    /// After a name is set.
    fn set(&self, seen: Seen, item: &Item) -> Option<Seen>
        ensures { slice_get self.now.items.now seen.item ≡ Some item.now → IsSetting item.now
            → IfSome result (λ next. Leads self.now.text.now self.now.items.now self.now.placed.now seen next) }
    {
        let ready = self.placed_value(seen, item.at)?;
        self.bound(ready, item)
    }

    /// Whether the next placed item outputs a register, and the routine ends if that is refused.
    fn is_out(&self, seen: &Seen, register: u8) -> bool
        ensures { IsTrue result → IsOut self.now.placed.now seen.now.placed seen.now.level register }
    {
        match self.fork_at(seen) {
            Some(fork) => {
                if fork.instr.opcode != Opcode::Out || fork.instr.a != register {
                    return false;
                }
                self.is_over(fork.target.index)
            }
            None => false,
        }
    }

    /// After the output of the last value, which is in a register.
    fn put_register(&self, seen: Seen, item: &Item) -> Option<Seen>
        ensures { slice_get self.now.items.now seen.item ≡ Some item.now → item.now.kind ≡ kind.Put
            → IfSome result (λ next. Leads self.now.text.now self.now.items.now self.now.placed.now seen next) }
    {
        match seen.first {
            Known::Register(register) => {
                if !self.is_out(&seen, register) {
                    return None;
                }
                match (seen.item.checked_add(1), seen.placed.checked_add(1)) {
                    (Some(item), Some(placed)) => Some(Seen {
                        item,
                        placed,
                        ..seen.popped()
                    }),
                    _ => None,
                }
            }
            _ => None,
        }
    }

    /// After an output.
    fn put(&self, seen: Seen, item: &Item) -> Option<Seen>
        ensures { slice_get self.now.items.now seen.item ≡ Some item.now → item.now.kind ≡ kind.Put
            → IfSome result (λ next. Leads self.now.text.now self.now.items.now self.now.placed.now seen next) }
    {
        let ready = self.in_register(seen)?;
        self.put_register(ready, item)
    }

    /// After an item without an effect.
    fn passed(&self, seen: Seen, item: &Item) -> Option<Seen>
        ensures { slice_get self.now.items.now seen.item ≡ Some item.now → IsPassed item.now
            → IfSome result (λ next. Leads self.now.text.now self.now.items.now self.now.placed.now seen next) }
    {
        match seen.item.checked_add(1) {
            Some(next) => Some(Seen { item: next, ..seen }),
            None => None,
        }
    }

    /// Past the part of the source that an item ends.
    fn past(&self, seen: Seen, item: &Item) -> Option<Seen>
        ensures { slice_get self.now.items.now seen.item ≡ Some item.now → IsPart item.now
            → IfSome result (λ next. Leads self.now.text.now self.now.items.now self.now.placed.now seen next) }
    {
        let from = seen.item.checked_add(1)?;
        let next = self.part_end(from)?;
        Some(Seen { item: next, ..seen })
    }

    /// After a number.
    fn number(&self, seen: Seen, item: &Item) -> Option<Seen>
        ensures { slice_get self.now.items.now seen.item ≡ Some item.now → item.now.kind ≡ kind.Number
            → IfSome result (λ next. Leads self.now.text.now self.now.items.now self.now.placed.now seen next) }
    {
        if item.a > 65_535 {
            return None;
        }
        seen.pushed(Known::Constant(item.a as u16))
    }

    /// After an item of a statement.
    fn stated(&self, seen: Seen, item: &Item) -> Option<Seen>
        ensures { slice_get self.now.items.now seen.item ≡ Some item.now
            → IfSome result (λ next. Leads self.now.text.now self.now.items.now self.now.placed.now seen next) }
    {
        match item.kind {
            ItemKind::Begin if item.a == 0 => self.passed(seen, item),
            ItemKind::End | ItemKind::If | ItemKind::Alt | ItemKind::IfEnd => {
                self.passed(seen, item)
            }
            ItemKind::AltEnd | ItemKind::CondEnd | ItemKind::Else => self.past(seen, item),
            ItemKind::Let if item.b == 1 => self.set(seen, item),
            ItemKind::Assign if item.b == 1 => self.set(seen, item),
            _ => None,
        }
    }

    /// After an item.
    fn after(&self, seen: Seen, item: &Item) -> Option<Seen>
        ensures { slice_get self.now.items.now seen.item ≡ Some item.now
            → IfSome result (λ next. Leads self.now.text.now self.now.items.now self.now.placed.now seen next) }
    {
        match item.kind {
            ItemKind::Number => self.number(seen, item),
            ItemKind::Named => self.named(seen, item),
            ItemKind::Put => self.put(seen, item),
            ItemKind::Add
            | ItemKind::Sub
            | ItemKind::Mul
            | ItemKind::Div
            | ItemKind::Rem
            | ItemKind::Mask
            | ItemKind::Left
            | ItemKind::Right => self.operation(seen, item),
            _ => self.stated(seen, item),
        }
    }

    /// Whether no placed item is left.
    fn is_over(&self, index: usize) -> bool
        ensures { IsTrue result → IsOver self.now.placed.now index }
    {
        index >= self.placed.len()
    }

    /// Whether the item ends the routine.
    fn ends(&self, seen: Seen, item: &Item) -> bool
        ensures { slice_get self.now.items.now seen.item ≡ Some item.now → IsTrue result
            → Sound self.now.text.now self.now.items.now self.now.placed.now seen }
    {
        match item.kind {
            ItemKind::BodyEnd => self.is_over(seen.placed),
            ItemKind::Return => item.a == 0 && self.is_over(seen.placed),
            _ => false,
        }
    }

    /// The item of the source at an index.
    pub(crate) fn item_at(&self, index: usize) -> Option<Item>
        ensures { IfSome result (λ item. slice_get self.now.items.now index ≡ Some item) }
    {
        self.items.get(index).copied()
    }

    /// Whether the next item ends the routine.
    pub(crate) fn is_ended(&self, seen: Seen) -> bool
        ensures { IsTrue result → Sound self.now.text.now self.now.items.now self.now.placed.now seen }
    {
        match self.item_at(seen.item) {
            Some(item) => self.ends(seen, &item),
            None => false,
        }
    }

    /// After the next item.
    pub(crate) fn next(&self, seen: Seen) -> Option<Seen>
        ensures { IfSome result (λ next. Leads self.now.text.now self.now.items.now self.now.placed.now seen next) }
    {
        match self.item_at(seen.item) {
            Some(item) => self.after(seen, &item),
            None => None,
        }
    }
}
