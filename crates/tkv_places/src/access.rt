//! Reads and writes through pointers.

use crate::names::value;
use crate::placed::{NOWHERE, with_number, with_registers};
use crate::placer::{Operand, Placer, Sort};
use geos_opcodes::Opcode;
use tkv_syntax::{Item, ItemKind, Why};

/// What is read or written through a pointer: at first all that this leads to, or a structure within.
#[derive(Clone, Copy)]
pub(crate) struct Target {
    pointer: Operand,
    /// The word of the indexes before, or 0.
    before: Operand,
    /// Its offset, in bytes.
    offset: u16,
    /// 1 or 2, or the bytes of the structure.
    bytes: u16,
    structure: u16,
    /// By how many bytes an index counts.
    scale: u16,
    /// Whether an index counts elements of a field, and how many there are.
    many: bool,
    pub count: u16,
    /// Whether the index is tested, so that the verifier knows its bound.
    pub tested: bool,
    /// How many values the pointer or the structure is.
    values: usize,
}

impl Target {
    /// The offset with an index.
    fn offset_at(&self, index: u16) -> u32 {
        u32::from(index)
            .saturating_mul(u32::from(self.scale))
            .saturating_add(u32::from(self.offset))
    }

    /// Whether with an index it is within the bytes of its pointer.
    fn is_within(&self, index: u16) -> bool {
        let end = self.offset_at(index).saturating_add(u32::from(self.bytes));
        end <= u32::from(self.pointer.value)
    }

    /// The last index of the array, if an index up to this number may be past that.
    pub(crate) fn last_index(&self, most: u16) -> Option<u16> {
        if self.many && most >= self.count {
            Some(self.count.saturating_sub(1))
        } else {
            None
        }
    }

    /// A constant index becomes a part of the offset. Returns the index that is left.
    fn fold(&mut self, index: Operand) -> Operand {
        let left = self.before;
        self.offset = self.offset_at(index.value).min(65_535) as u16;
        self.scale = 1;
        self.before = index;
        self.before.value = 0;
        left
    }
}

/// The block around the statements of a public routine.
const OUTERMOST: u16 = 0;

/// Whether it is written, and of how many bytes it is: the opcodes for a fixed offset, an index that the verifier bounds, and a tested one.
fn opcodes(store: bool, bytes: u16) -> (Opcode, Opcode, Opcode) {
    match (store, bytes == 2) {
        (false, true) => (Opcode::Ldw, Opcode::Ldxw, Opcode::Ldcw),
        (false, false) => (Opcode::Ldb, Opcode::Ldxb, Opcode::Ldcb),
        (true, true) => (Opcode::Stw, Opcode::Stxw, Opcode::Stcw),
        (true, false) => (Opcode::Stb, Opcode::Stxb, Opcode::Stcb),
    }
}

impl Placer {
    /// The pointer, or the structure within what it leads to, that so many values follow.
    fn path(&mut self, after: usize, at: u32) -> Target {
        let last = self.operand(after, at);
        let part = matches!(last.sort, Sort::Part);
        Target {
            pointer: if part {
                self.operand(after.saturating_add(2), at)
            } else {
                last
            },
            before: if part {
                self.operand(after.saturating_add(1), at)
            } else {
                value(Sort::Constant, at, 0, 0)
            },
            offset: if part { last.value } else { 0 },
            bytes: 2,
            structure: last.structure,
            scale: 1,
            many: false,
            count: 0,
            tested: false,
            values: if part { 3 } else { 1 },
        }
    }

    /// Goes on to a field, or to `w` or `b` with an index.
    fn reach(&mut self, item: &Item, target: &mut Target) {
        let name = self.declared.name(item.at);
        let mut many = true;
        match self.declared.field(target.structure, &name) {
            Some(field) => {
                target.offset = target.offset.saturating_add(field.offset);
                target.bytes = field.bytes;
                target.scale = field.bytes;
                target.structure = field.structure;
                target.many = field.many;
                target.count = field.count;
                many = field.many;
            }
            None => {
                let wide = name[0] == b'w';
                if name[1] != 0 || !(wide || name[0] == b'b') {
                    self.refuse(Why::NoField, item.at);
                }
                target.bytes = 1 + u16::from(wide);
                target.structure = NOWHERE;
            }
        }
        if many != (item.a != 0) {
            self.refuse(Why::FieldIndex, item.at);
        }
    }

    /// The word that has the offset of an index. If it is computed, it takes the word of the indexes before, or a free one.
    fn offset_word(&mut self, target: &Target, index: Operand, at: u32) -> u8 {
        let mut register = self.word_of(index);
        let scales = target.scale == 2;
        let sums = !target.before.is_constant();
        if !scales && !sums && target.offset == 0 {
            return register;
        }
        let to = if target.before.is_temporary() && !scales {
            target.before.register
        } else {
            self.take_word(at)
        };
        if scales {
            self.act(with_number(Opcode::Muli, to, register, 2), at);
            register = to;
        }
        if sums {
            let before = self.word_of(target.before);
            self.act(with_registers(Opcode::Add, to, register, before), at);
            register = to;
        }
        if target.offset > 0 {
            let more = self.word_of(value(Sort::Constant, at, 0, target.offset));
            self.act(with_registers(Opcode::Add, to, register, more), at);
        }
        to
    }

    /// The word that is written. A constant is loaded into a word of its own if an index is computed too.
    fn stored_word(&mut self, stored: Operand, index: &Operand, at: u32) -> u8 {
        if !stored.is_constant() || index.is_constant() {
            return self.word_of(stored);
        }
        let register = self.take_word(at);
        self.move_to(stored, register, at);
        register
    }

    /// A structure within what a pointer leads to: the pointer stays, with the sum of the indexes.
    fn part(&mut self, item: &Item, target: &Target, index: Operand, count: usize) {
        let at = item.at;
        if item.b % 2 != 0 {
            self.refuse(Why::NotRefusable, at);
        }
        let left = self.operands.len().saturating_sub(count);
        self.operands.truncate(left.saturating_add(1));
        let sums = !target.before.is_constant();
        if sums {
            self.push(target.before);
        }
        self.push(index);
        let mut operation = *item;
        if target.scale != 1 {
            self.push(value(Sort::Constant, at, 0, target.scale));
            operation.kind = ItemKind::Mul;
            self.operation(&operation);
        }
        if sums {
            operation.kind = ItemKind::Add;
            self.operation(&operation);
        }
        self.push(Operand {
            structure: target.structure,
            ..value(Sort::Part, at, 0, target.offset)
        });
    }

    /// Reads or writes: the pointer or structure, the index if there is one, and what is written are the last values.
    pub(crate) fn access(&mut self, item: &Item, store: bool) {
        let at = item.at;
        if store {
            self.operand_count();
        }
        let after = usize::from(item.a != 0) + usize::from(store);
        let mut target = self.path(after, at);
        let count = target.values.saturating_add(after);
        let pointer = target.pointer;
        if matches!(pointer.sort, Sort::Structure) && !store {
            return self.structure_constant(item, pointer);
        }
        if !pointer.is_pointer() {
            return self.refuse(Why::NoPointer, pointer.at);
        }
        self.reach(item, &mut target);
        let mut index = if item.a == 0 {
            value(Sort::Constant, at, 0, 0)
        } else {
            self.operand(usize::from(store), at)
        };
        let nested = target.structure != NOWHERE;
        self.test_index(item, &mut target, &index);
        if index.is_constant() && (nested || target.values > 1) {
            if !target.is_within(index.value) {
                return self.refuse_for(Why::PastEnd, at, at, pointer.value);
            }
            index = target.fold(index);
        }
        if nested {
            if store {
                self.refuse_part(at);
            }
            return self.part(item, &target, index, count);
        }
        self.read_or_write(item, &target, index, store, count);
    }

    /// Reads or writes a word or byte. The access takes so many values.
    fn read_or_write(
        &mut self,
        item: &Item,
        target: &Target,
        index: Operand,
        store: bool,
        count: usize,
    ) {
        let at = item.at;
        let words = self.words;
        let register = if store {
            let slot = self.leads[usize::from(self.pointer_of(target.pointer))];
            self.mark(slot, at);
            let stored = self.operand(0, at);
            self.stored_word(stored, &index, at)
        } else {
            self.lowest(count, at)
        };
        self.accessed(item, target, index, store, register);
        self.words = words;
        self.take_values(count);
        if !store {
            self.push_result(at);
        }
    }

    /// Goes on to a field for a string, which is to be an array of bytes with room for that. Returns the index before it.
    fn reach_string(&mut self, item: &Item, target: &mut Target) -> Operand {
        let at = item.at;
        let name = self.declared.name(at);
        match self.declared.field(target.structure, &name) {
            Some(field) => {
                let bytes = field.many && field.bytes == 1 && field.structure == NOWHERE;
                if !bytes || item.a != 0 {
                    self.refuse(Why::Text, at);
                } else if item.c > u32::from(field.count) {
                    self.refuse_for(Why::LongText, at, at, field.count);
                }
                target.offset = target.offset.saturating_add(field.offset);
            }
            None => self.refuse(Why::NoField, at),
        }
        let index = target.before;
        if item.b != 0 && index.is_constant() {
            self.refuse(Why::NotRefusable, at);
        }
        target.before = value(Sort::Constant, at, 0, 0);
        index
    }

    /// Writes a string into a field of bytes. The last values are a pointer or structure, and numbers that have two bytes each.
    pub(crate) fn write_string(&mut self, item: &Item) {
        let at = item.at;
        let pairs = item.c.div_ceil(2) as usize;
        let mut target = self.path(pairs, at);
        let slot = self.leads[usize::from(self.pointer_of(target.pointer))];
        let index = self.reach_string(item, &mut target);
        self.mark(slot, at);
        // Each index before it is within its array, so that all bytes are written.
        let handler = self.handler;
        self.handler = NOWHERE;
        let within = Item { b: 0, ..*item };
        for k in 0..pairs {
            let words = self.words;
            if k + 1 == pairs && item.c % 2 == 1 {
                target.bytes = 1;
            }
            let stored = self.operand(pairs - 1 - k, at);
            let register = self.stored_word(stored, &index, at);
            self.accessed(&within, &target, index, true, register);
            self.words = words;
            target.offset = target.offset.saturating_add(2);
        }
        self.handler = handler;
        self.take_values(target.values.saturating_add(pairs));
    }

    /// The access of a word through a pointer with an index, at an offset that is fixed, bounded or tested.
    fn accessed(
        &mut self,
        item: &Item,
        target: &Target,
        index: Operand,
        store: bool,
        register: u8,
    ) {
        let at = item.at;
        let (fixed, bounded, tested) = opcodes(store, target.bytes);
        let from = self.pointer_of(target.pointer);
        let may_be_refused = item.b != 0 || self.handler != NOWHERE;
        if index.is_constant() {
            let offset = target.offset_at(index.value);
            if target.is_within(index.value) && offset <= 65_535 {
                return self.act(with_number(fixed, register, from, offset as u16), at);
            }
            if !may_be_refused || item.a == 0 {
                return self.refuse_for(Why::PastEnd, at, at, target.pointer.value);
            }
        }
        let within = self.is_always_within(target, &index);
        let word = self.offset_word(target, index, at);
        let (opcode, way) = if target.tested && target.before.is_constant() {
            (bounded, NOWHERE)
        } else if may_be_refused {
            (tested, self.refusal_way(item.b != 0, at))
        } else if within {
            // The test costs no step and never fails.
            (tested, OUTERMOST)
        } else {
            (bounded, NOWHERE)
        };
        self.act_to(with_registers(opcode, register, from, word), way, at);
    }

    /// Whether a target is within the bytes of its pointer for each number that the index can be.
    fn is_always_within(&self, target: &Target, index: &Operand) -> bool {
        let end = u32::from(self.most_of(index))
            .saturating_mul(u32::from(target.scale))
            .saturating_add(u32::from(self.most_of(&target.before)))
            .saturating_add(u32::from(target.offset))
            .saturating_add(u32::from(target.bytes));
        end <= u32::from(target.pointer.value)
    }

    /// `STRUCTURE.size`, or where a field begins.
    fn structure_constant(&mut self, item: &Item, structure: Operand) {
        let name = self.declared.name(item.at);
        let number = match self.declared.field(structure.structure, &name) {
            Some(field) => field.offset,
            None => {
                if name != *b"size\0\0\0\0\0\0\0\0\0\0\0\0" {
                    self.refuse(Why::NoField, item.at);
                }
                structure.value
            }
        };
        if item.a != 0 || item.b != 0 {
            self.refuse(Why::FieldIndex, item.at);
        }
        self.take_values(1);
        self.push(value(Sort::Constant, item.at, 0, number));
    }
}
