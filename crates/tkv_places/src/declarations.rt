//! The declarations of a program: constants, structures and routines.

use crate::placed::NOWHERE;
use crate::placer::added;
use geos_opcodes::{Opcode, SlotUse};
use std::alloc::{AllocError, Global};
use tkv_syntax::{Fault, Item, ItemKind, NUMBERS, Name, Source, Why, name_at};

/// The most declarations of a program, and the most fields of all structures.
const MOST: usize = 256;

/// What a declared name stands for.
#[derive(Clone, Copy)]
pub(crate) enum Kind {
    Constant,
    Structure,
    Routine,
}

/// A declaration.
#[derive(Clone, Copy)]
pub(crate) struct Declaration {
    pub name: Name,
    /// Its index.
    pub index: u16,
    pub kind: Kind,
    pub at: u32,
    /// The constant, or how many bytes the structure has.
    pub value: u16,
    /// The item that declares the routine.
    pub item: usize,
    /// Whether the routine makes no call that moves chunks, nor one of a routine.
    pub quiet: bool,
    /// Whether a routine that was placed calls the routine.
    pub called: bool,
}

/// A field of a structure.
#[derive(Clone, Copy)]
pub(crate) struct FieldPlace {
    pub name: Name,
    /// The declaration of the structure.
    pub owner: u16,
    /// Its offset, in bytes.
    pub offset: u16,
    /// The bytes of an element: 1 or 2, or those of a structure.
    pub bytes: u16,
    /// The structure of an element, or `NOWHERE`.
    pub structure: u16,
    /// Whether it has an index, and how many elements.
    pub many: bool,
    pub count: u16,
}

/// A program, and its declarations.
#[derive(Drop)]
pub struct Declared {
    pub(crate) source: Source,
    pub(crate) globals: Vec<Declaration>,
    pub(crate) fields: Vec<FieldPlace>,
}

/// Whether a program may call the instruction: not one that only the compiler makes, nor a lock.
pub(crate) fn is_call(opcode: Opcode) -> bool {
    let kept = matches!(
        opcode,
        Opcode::Out | Opcode::Ldcb | Opcode::Ldcw | Opcode::Stcb | Opcode::Stcw
    );
    let free = matches!(
        opcode,
        Opcode::Lcontract | Opcode::Copy | Opcode::Plen | Opcode::Vgetmap | Opcode::Igetmap
    );
    (opcode.operands().refusable && !kept && !is_lock(opcode)) || free
}

/// Whether the instruction locks a block.
pub(crate) fn is_lock(opcode: Opcode) -> bool {
    matches!(opcode.uses().slot, SlotUse::Locks(_) | SlotUse::LocksNew(_))
}

/// The opcode that a call or a lock of this name stands for.
pub(crate) fn opcode_named(name: &Name) -> Option<Opcode> {
    let mut word = *name;
    let mut length = 0;
    for k in 0..16 {
        if name[k].is_ascii_uppercase() {
            return None;
        }
        if name[k] != 0 {
            word[k] = name[k].to_ascii_uppercase();
            length = k + 1;
        }
    }
    match Opcode::from_word(&word[..length.min(16)]) {
        Some(opcode) if is_call(opcode) || is_lock(opcode) => Some(opcode),
        _ => None,
    }
}

impl Declared {
    /// The items of the program.
    pub fn items(&self) -> &[Item] {
        &self.source.items
    }

    /// An item of the program, if it is there.
    pub(crate) fn item(&self, index: usize) -> Option<Item> {
        self.source.items.get(index).copied()
    }

    /// The name at an offset of the source.
    pub(crate) fn name(&self, at: u32) -> Name {
        name_at(&self.source.text, at)
    }

    /// Notes that the routine with the index is called.
    pub(crate) fn note_call(&mut self, index: u16) {
        if let Some(global) = self.globals.get_mut(usize::from(index)) {
            global.called = true;
        }
    }

    /// Whether the item declares a routine of the source, not of the library, that is not public and that no placed routine calls.
    fn is_uncalled(&self, global: &Declaration) -> bool {
        let own = global.at < self.source.own && !global.called;
        match self.item(global.item) {
            Some(item) => own && matches!(item.kind, ItemKind::Fn) && item.a % 2 == 0,
            None => false,
        }
    }

    /// The items that declare routines which are not public and which no placed routine calls, in the order of the source, without those of
    /// the library. `AllocError` if the allocator refuses memory.
    pub fn uncalled(&self, alloc: Global) -> Result<Vec<usize>, AllocError> {
        let mut items = Vec::new(alloc);
        for global in &self.globals {
            if self.is_uncalled(global) {
                items.push(global.item)?;
            }
        }
        Ok(items)
    }

    /// The fault of a name that is declared at two places. The library follows the source.
    fn twice(&self, first: u32, second: u32) -> Fault {
        if second < self.source.own {
            Fault {
                other: first,
                ..Fault::new(Why::Twice, second)
            }
        } else {
            Fault::new(Why::InLibrary, first)
        }
    }

    /// The declaration of a name, if it has one.
    pub(crate) fn find(&self, name: &Name) -> Option<Declaration> {
        for global in &self.globals {
            if global.name == *name {
                return Some(*global);
            }
        }
        None
    }

    /// A field of a structure, by its name.
    pub(crate) fn field(&self, owner: u16, name: &Name) -> Option<FieldPlace> {
        for field in &self.fields {
            if field.owner == owner && field.name == *name {
                return Some(*field);
            }
        }
        None
    }

    /// What a constant of an item says: a number, or the name of a constant or of a structure, which stands for its bytes.
    pub(crate) fn constant(&self, code: u32) -> Result<u16, Fault> {
        if code < NUMBERS {
            return Ok(code as u16);
        }
        let at = code - NUMBERS;
        match self.find(&self.name(at)) {
            Some(global) if !matches!(global.kind, Kind::Routine) => Ok(global.value),
            _ => Err(Fault::new(Why::NoConstant, at)),
        }
    }
}

/// Two constants joined by an operation; `None` if the result is no word.
pub(crate) fn folded(kind: ItemKind, left: u16, right: u16) -> Option<u16> {
    let (x, y) = (u32::from(left), u32::from(right));
    let value = match kind {
        ItemKind::Add => x + y,
        ItemKind::Sub => x.wrapping_sub(y),
        ItemKind::Mul => x.saturating_mul(y),
        ItemKind::Div => if y == 0 { NUMBERS } else { x / y },
        ItemKind::Rem => if y == 0 { NUMBERS } else { x % y },
        ItemKind::Mask => x & y,
        ItemKind::Left => if y > 15 { NUMBERS } else { x << y },
        ItemKind::Right => if y > 15 { NUMBERS } else { x >> y },
        _ => NUMBERS,
    };
    if value < NUMBERS {
        Some(value as u16)
    } else {
        None
    }
}

/// What is being declared. After the first fault what is declared does not matter.
#[derive(Drop)]
struct Declaring {
    declared: Declared,
    /// The values of a constant that are not used yet.
    values: Vec<u16>,
    /// Whether the items are those of a routine.
    within: bool,
    /// The first fault, if there is one.
    fault: Option<Fault>,
}

impl Declaring {
    /// Keeps a fault, if it is the first one.
    fn refuse_with(&mut self, fault: Fault) {
        if self.fault.is_none() {
            self.fault = Some(fault);
        }
    }

    fn refuse(&mut self, why: Why, at: u32) {
        self.refuse_with(Fault::new(why, at));
    }

    /// Refuses the source unless there was memory to keep what is at a place.
    fn keep(&mut self, kept: bool, at: u32) {
        if !kept {
            self.refuse(Why::Memory, at);
        }
    }

    /// Declares a name that has no declaration, and that is not one of the kernel's calls.
    fn name(&mut self, kind: Kind, item: usize, at: u32, value: u16) {
        let name = self.declared.name(at);
        if let Some(old) = self.declared.find(&name) {
            let fault = self.declared.twice(old.at, at);
            self.refuse_with(fault);
        } else if opcode_named(&name).is_some() {
            self.refuse(Why::Instruction, at);
        }
        let index = self.declared.globals.len();
        if index >= MOST {
            return self.refuse(Why::TooMany, at);
        }
        let global = Declaration {
            name,
            index: index as u16,
            kind,
            at,
            value,
            item,
            quiet: true,
            called: false,
        };
        let kept = added(&mut self.declared.globals, global);
        self.keep(kept, at);
    }

    /// What a constant says that is used.
    fn constant(&mut self, code: u32) -> u16 {
        match self.declared.constant(code) {
            Ok(value) => value,
            Err(fault) => {
                self.refuse_with(fault);
                0
            }
        }
    }

    /// Makes the structure that is declared last larger. Where its new bytes begin.
    fn extend(&mut self, bytes: u32, at: u32) -> u16 {
        let Some(structure) = self.declared.globals.last_mut() else {
            self.refuse(Why::Unknown, at);
            return 0;
        };
        let offset = structure.value;
        let end = u32::from(offset).saturating_add(bytes);
        if end > 65_535 {
            self.refuse(Why::ConstantRange, at);
        } else {
            structure.value = end as u16;
        }
        offset
    }

    /// The bytes of an element of a field, and its structure or `NOWHERE`. The structure has another owner, so it is declared before.
    fn element(&mut self, code: u32, owner: u16) -> (u16, u16) {
        if code < NUMBERS {
            return (code as u16, NOWHERE);
        }
        let at = code - NUMBERS;
        match self.declared.find(&self.declared.name(at)) {
            Some(global) if matches!(global.kind, Kind::Structure) && global.index != owner => {
                (global.value, global.index)
            }
            _ => {
                self.refuse(Why::ExpectedField, at);
                (0, NOWHERE)
            }
        }
    }

    /// Adds a field to the structure that is declared last.
    fn field(&mut self, item: &Item) {
        let name = self.declared.name(item.at);
        let owner = self.declared.globals.len().saturating_sub(1).min(MOST) as u16;
        let count = self.constant(item.c);
        let (bytes, structure) = self.element(item.a, owner);
        if self.declared.field(owner, &name).is_some() {
            self.refuse(Why::Twice, item.at);
        } else if self.declared.fields.len() >= MOST {
            self.refuse(Why::TooMany, item.at);
        }
        let field = FieldPlace {
            name,
            owner,
            offset: self.extend(u32::from(count).saturating_mul(u32::from(bytes)), item.at),
            bytes,
            structure,
            many: item.b != 0,
            count,
        };
        let kept = added(&mut self.declared.fields, field);
        self.keep(kept, item.at);
    }

    fn value(&mut self, value: u16, at: u32) {
        let kept = added(&mut self.values, value);
        self.keep(kept, at);
    }

    /// Joins the last two values of a constant.
    fn fold(&mut self, item: &Item) {
        let (Some(right), Some(left)) = (self.values.pop(), self.values.pop()) else {
            return self.refuse(Why::NoConstant, item.at);
        };
        match folded(item.kind, left, right) {
            Some(value) => self.value(value, item.at),
            None => self.refuse(Why::ConstantRange, item.at),
        }
    }

    /// The item of a constant's value.
    fn constant_item(&mut self, item: &Item) {
        match item.kind {
            ItemKind::Number => self.value(item.a.min(65_535) as u16, item.at),
            ItemKind::Named => {
                let value = self.constant(item.at.saturating_add(NUMBERS));
                self.value(value, item.at);
            }
            _ => self.fold(item),
        }
    }

    /// A call within the routine that is declared last.
    fn call(&mut self, at: u32) {
        if !self.within {
            return self.refuse(Why::NoConstant, at);
        }
        let quiet = match opcode_named(&self.declared.name(at)) {
            Some(opcode) => !matches!(opcode.uses().slot, SlotUse::Moves | SlotUse::MovesGroup),
            None => false,
        };
        if let Some(global) = self.declared.globals.last_mut() {
            global.quiet = global.quiet && quiet;
        }
    }

    fn item(&mut self, index: usize, item: &Item) {
        match item.kind {
            ItemKind::Fn => {
                self.within = true;
                self.name(Kind::Routine, index, item.at, 0);
            }
            ItemKind::BodyEnd => self.within = false,
            ItemKind::StructDef => self.name(Kind::Structure, index, item.at, 0),
            ItemKind::FieldDef => self.field(item),
            ItemKind::StructEnd => {}
            ItemKind::ConstDef => {
                let value = self.values.pop().unwrap_or(0);
                self.name(Kind::Constant, index, item.at, value);
            }
            ItemKind::Call => self.call(item.at),
            _ => {
                if !self.within {
                    self.constant_item(item);
                }
            }
        }
    }
}

/// What a program declares. A constant is known to the declarations below it, a routine to all.
pub fn declare(alloc: Global, source: Source) -> Result<Declared, Fault> {
    let declared = Declared {
        source,
        globals: Vec::new(alloc),
        fields: Vec::new(alloc),
    };
    let mut declaring = Declaring {
        declared,
        values: Vec::new(alloc),
        within: false,
        fault: None,
    };
    for index in 0..declaring.declared.source.items.len() {
        if declaring.fault.is_some() {
            break;
        }
        if let Some(item) = declaring.declared.item(index) {
            declaring.item(index, &item);
        }
    }
    match declaring.fault {
        Some(fault) => Err(fault),
        None => Ok(declaring.declared),
    }
}
