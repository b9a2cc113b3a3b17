//! Names, and the registers that they take.

ghost use Rattle.std.specs.Prelude.{◌<◌, IfSome};

use crate::declarations::Kind;
use crate::placed::NOWHERE;
use crate::placer::{Held, MOST_WORDS, Meaning, Operand, Placer, Sort, Symbol, added};
use crate::state::{bit, fetched};
use tkv_syntax::{Fault, Item, ItemKind, NONE, Name, Why};

/// A value with these fields.
pub(crate) fn value(sort: Sort, at: u32, register: u8, number: u16) -> Operand {
    Operand {
        sort,
        at,
        register,
        value: number,
        structure: NOWHERE,
    }
}

/// The last item that needs a name, as far as items are gone over.
#[derive(Clone, Copy)]
struct Need {
    index: usize,
    last: usize,
    /// How many loops have begun, and whether one of them needs the name.
    depth: u32,
    waits: bool,
}

impl Need {
    /// Goes over an item. Whether it ends the routine, or a loop that began before all.
    fn ends(&mut self, kind: ItemKind, named: bool) -> bool {
        if named {
            self.last = self.index;
            self.waits = self.depth > 0;
        }
        if matches!(kind, ItemKind::Turns | ItemKind::For) {
            self.depth = self.depth.saturating_add(1);
        }
        if matches!(kind, ItemKind::TurnEnd) {
            if self.depth == 0 {
                return true;
            }
            self.depth -= 1;
            if self.depth == 0 && self.waits {
                self.last = self.index;
                self.waits = false;
            }
        }
        self.index = self.index.saturating_add(1);
        matches!(kind, ItemKind::BodyEnd)
    }
}

impl Placer {
    /// What a name of the routine stands for.
    pub(crate) fn symbol(&self, name: &Name) -> Symbol {
        for k in self.base..self.symbols.len() {
            if self.symbols[k].name == *name {
                return self.symbols[k];
            }
        }
        Symbol {
            name: *name,
            at: 0,
            meaning: Meaning::Nothing,
            register: 0,
            value: 0,
            structure: NOWHERE,
            last: 0,
        }
    }

    /// Gives a name its meaning, which no other name of the routine has.
    pub(crate) fn know(&mut self, symbol: Symbol) {
        let kept = added(&mut self.symbols, symbol);
        self.keep(kept, symbol.at);
    }

    /// Names a register. The routine has no other name that is the same. A word that may be set is free again after the last item that
    /// needs it.
    pub(crate) fn declare(
        &mut self,
        meaning: Meaning,
        at: u32,
        register: u8,
        value: u16,
        structure: u16,
    ) {
        let last = if matches!(meaning, Meaning::Word) {
            self.last_need(at)
        } else {
            usize::MAX
        };
        let name = self.declared.name(at);
        let old = self.symbol(&name);
        if !matches!(old.meaning, Meaning::Nothing) {
            return self.refuse_for(Why::Twice, at, old.at, 0);
        }
        self.know(Symbol {
            name,
            at,
            meaning,
            register,
            value,
            structure,
            last,
        });
    }

    /// The last item from here on that needs the name. If that is in a loop that begins from here on, the end of the loop's iteration.
    fn last_need(&mut self, at: u32) -> usize {
        let name = self.declared.name(at);
        let from = self.next;
        let mut need = Need {
            index: from,
            last: 0,
            depth: 0,
            waits: false,
        };
        for index in from..self.declared.items().len() {
            let Some(item) = self.declared.item(index) else {
                break;
            };
            if self.effort == 0 {
                self.refuse(Why::TooMany, at);
                break;
            }
            self.effort -= 1;
            let named = matches!(
                item.kind,
                ItemKind::Named | ItemKind::Assign | ItemKind::Handle
            );
            if need.ends(item.kind, named && self.declared.name(item.at) == name) {
                break;
            }
        }
        need.last
    }

    /// The words that names of the routine need still.
    pub(crate) fn needed_words(&self) -> u32 {
        let mut words = 0;
        for k in self.base..self.symbols.len() {
            let symbol = self.symbols[k];
            let word = matches!(symbol.meaning, Meaning::Word | Meaning::Fixed);
            if word && symbol.last >= self.next {
                words |= bit(symbol.register);
            }
        }
        words
    }

    /// No value is left, nor a register that one takes. Words that no name needs any more are free.
    pub(crate) fn clear(&mut self) {
        let needed = self.needed_words();
        let mut named = self.callers;
        for register in 0..MOST_WORDS {
            if needed & bit(register) != 0 && register >= named {
                named = register + 1;
            }
        }
        self.named = named;
        self.words = named;
        self.pointers = self.named_pointers;
        self.operands.truncate(self.floor);
        self.spare_taken = false;
    }

    /// The lowest word that a name had and that no name needs any more.
    pub(crate) fn freed_word(&self) -> Option<u8>
        ensures { IfSome result (λ word. word < 7) }
    {
        let needed = self.needed_words();
        for register in 0..MOST_WORDS {
            let free = register >= self.callers && register < self.named;
            if free && needed & bit(register) == 0 {
                return Some(register);
            }
        }
        None
    }

    /// A free word for a name: the lowest.
    pub(crate) fn take_named(&mut self, at: u32) -> u8
        ensures { result < 7 }
    {
        match self.freed_word() {
            Some(register) => register,
            None => self.take_word(at),
        }
    }

    /// Refuses the source since no word is left, and tells where the names are declared that hold words. A parameter in a word of the caller has
    /// no word of its own.
    pub(crate) fn refuse_words(&mut self, at: u32) {
        let mut holders = [NONE; 7];
        for k in 0..self.symbols.len() {
            let symbol = self.symbols[k];
            let word = matches!(symbol.meaning, Meaning::Word | Meaning::Fixed);
            let holds = if k < self.base {
                word
            } else {
                word && symbol.last >= self.next && symbol.register >= self.callers
            };
            if symbol.register < 7 && holds {
                holders[usize::from(symbol.register)] = symbol.at;
            }
        }
        self.refuse_with(Fault {
            holders,
            ..Fault::new(Why::NoWordLeft, at)
        });
    }

    /// The lowest word that is free.
    pub(crate) fn take_word(&mut self, at: u32) -> u8
        ensures { result < 7 }
    {
        if self.words >= MOST_WORDS {
            self.refuse_words(at);
            return 0;
        }
        let register = self.words;
        self.words = register + 1;
        register
    }

    /// A word that keeps its value to the end of the construct.
    pub(crate) fn keep_word(&mut self, register: u8) {
        if register >= self.named && register < MOST_WORDS {
            self.named = register + 1;
        }
        if self.words < self.named {
            self.words = self.named;
        }
    }

    /// The lowest pointer that is free, which will lead into the slot.
    pub(crate) fn take_pointer(&mut self, slot: u8, at: u32) -> u8
        ensures { result < 4 }
    {
        let register = self.pointers;
        if register >= 4 {
            self.refuse(Why::NoPointerLeft, at);
            return 0;
        }
        self.pointers = register + 1;
        self.leads[usize::from(register)] = slot;
        self.state.facts &= !fetched(register);
        self.lost[usize::from(register)].lost = false;
        register
    }

    /// The lowest slot that is free.
    pub(crate) fn free_slot(&mut self, at: u32) -> u8
        ensures { result < 4 }
    {
        for slot in 0..4 {
            if matches!(self.slots[slot], Held::Free) {
                return slot as u8;
            }
        }
        self.refuse(Why::NoSlotLeft, at);
        0
    }

    /// What a slot holds.
    pub(crate) fn held(&self, slot: u8) -> Held {
        if slot < 4 {
            self.slots[usize::from(slot)]
        } else {
            Held::Free
        }
    }

    pub(crate) fn hold(&mut self, slot: u8, held: Held) {
        if slot < 4 {
            self.slots[usize::from(slot)] = held;
        }
    }

    pub(crate) fn push(&mut self, operand: Operand) {
        let kept = added(&mut self.operands, operand);
        self.keep(kept, operand.at);
    }

    /// The value of a name.
    pub(crate) fn named_value(&mut self, item: &Item) {
        let name = self.declared.name(item.at);
        let symbol = self.symbol(&name);
        let sort = match symbol.meaning {
            Meaning::Nothing => return self.global_value(item, &name),
            Meaning::Word | Meaning::Fixed => Sort::Word,
            Meaning::Constant => Sort::Constant,
            Meaning::Block => Sort::Block,
            Meaning::Pointer => Sort::Pointer,
        };
        self.push(Operand {
            sort,
            at: item.at,
            register: symbol.register,
            value: symbol.value,
            structure: symbol.structure,
        });
    }

    /// The value of a declared name.
    fn global_value(&mut self, item: &Item, name: &Name) {
        match self.declared.find(name) {
            Some(global) => {
                let sort = match global.kind {
                    Kind::Constant => Sort::Constant,
                    Kind::Structure => Sort::Structure,
                    Kind::Routine => return self.refuse(Why::NoWordHere, item.at),
                };
                self.push(Operand {
                    structure: global.index,
                    ..value(sort, item.at, 0, global.value)
                })
            }
            None => self.refuse(Why::Unknown, item.at),
        }
    }

    /// The word for the handle of a block that is made. It is declared here if it is not known.
    pub(crate) fn handle_value(&mut self, item: &Item) {
        let name = self.declared.name(item.at);
        let symbol = self.symbol(&name);
        let register = match symbol.meaning {
            Meaning::Word => symbol.register,
            Meaning::Nothing => self.declare_unset(item.at),
            _ => return self.refuse(Why::NotSettable, item.at),
        };
        self.push(value(Sort::Handle, item.at, register, 0))
    }
}
