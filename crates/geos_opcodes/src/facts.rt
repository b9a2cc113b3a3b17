//! The table of opcodes: what there is to know of each.

ghost use Rattle.std.specs.Prelude.{◌≡◌};
ghost use Rattle.geos_opcodes.specs.Facts as table;

use crate::opcode::{Opcode, Operand, Operands};
use crate::uses::{Kind, Offset, PointerUse, SlotUse, Uses, Width};

/// The register in which an instruction leaves a word, and what is known of the word.
#[derive(Clone, Copy)]
pub enum Yields {
    /// Nowhere.
    Nothing,
    /// In word a, by what the operands are.
    Computed,
    /// A byte in word a.
    ByteInA,
    /// Any word in word a.
    WordInA,
    /// Any word in word b.
    WordInB,
    /// Any word in word a, and then in word b, which may be the same one.
    WordInAAndB,
}

/// Where control goes.
#[derive(Clone, Copy, PartialEq, Eq)]
pub enum Flow {
    /// On, and where the target is a label, there too.
    Along,
    /// Only to the target.
    Jumps,
    /// To a routine, and then on.
    Calls,
    /// Back.
    Returns,
}

/// What becomes of counter a.
#[derive(Clone, Copy)]
pub enum CounterUse {
    /// Nothing.
    Untouched,
    /// It is set to imm.
    SetTo,
    /// It is set to word b.
    SetToWord,
    /// One is taken from it on the way to the target.
    CountsDown,
}

/// What there is to know of an opcode.
#[derive(Clone, Copy)]
pub struct Facts {
    /// The byte that encodes it.
    pub code: u8,
    pub operands: Operands,
    pub uses: Uses,
    pub yields: Yields,
    pub flow: Flow,
    pub counter: CounterUse,
}

/// Uses of only a slot.
fn slot_uses(slot: SlotUse) -> Uses
    ensures { result ≡ table.slot_uses slot }
{
    Uses {
        slot,
        pointer: PointerUse::NoPointer,
    }
}

/// Uses of only pointers.
fn pointer_uses(pointer: PointerUse) -> Uses
    ensures { result ≡ table.pointer_uses pointer }
{
    Uses {
        slot: SlotUse::NoSlot,
        pointer,
    }
}

/// An instruction that continues, and is never refused.
fn plain(code: u8, a: Operand, b: Operand, c: Operand, imm: Operand) -> Facts
    ensures { result ≡ table.plain code a b c imm }
{
    Facts {
        code,
        operands: Operands {
            a,
            b,
            c,
            d: Operand::Unused,
            imm,
            target: Operand::Unused,
            refusable: false,
        },
        uses: slot_uses(SlotUse::NoSlot),
        yields: Yields::Nothing,
        flow: Flow::Along,
        counter: CounterUse::Untouched,
    }
}

/// One that computes word a.
fn computes(code: u8, a: Operand, b: Operand, c: Operand, imm: Operand) -> Facts
    ensures { result ≡ table.computes code a b c imm }
{
    Facts {
        yields: Yields::Computed,
        ..plain(code, a, b, c, imm)
    }
}

/// One that may go to its target.
fn branch(code: u8, a: Operand, b: Operand, imm: Operand) -> Facts
    ensures { result ≡ table.branch code a b imm }
{
    let facts = plain(code, a, b, Operand::Unused, imm);
    Facts {
        operands: Operands {
            target: Operand::Label,
            ..facts.operands
        },
        ..facts
    }
}

/// One that can be refused.
fn refusable(code: u8, a: Operand, b: Operand, c: Operand, d: Operand, imm: Operand) -> Facts
    ensures { result ≡ table.refusable code a b c d imm }
{
    let facts = plain(code, a, b, c, imm);
    Facts {
        operands: Operands {
            d,
            target: Operand::Label,
            refusable: true,
            ..facts.operands
        },
        ..facts
    }
}

/// One on a slot, which is never refused.
fn on_slot(code: u8, b: Operand, slot: SlotUse) -> Facts
    ensures { result ≡ table.on_slot code b slot }
{
    Facts {
        uses: slot_uses(slot),
        ..plain(code, Operand::Slot, b, Operand::Unused, Operand::Unused)
    }
}

/// A call of the kernel on the block of a slot.
fn block_call(
    code: u8,
    b: Operand,
    c: Operand,
    d: Operand,
    imm: Operand,
    slot: SlotUse,
    yields: Yields,
) -> Facts
    ensures { result ≡ table.block_call code b c d imm slot yields }
{
    Facts {
        uses: slot_uses(slot),
        yields,
        ..refusable(code, Operand::Slot, b, c, d, imm)
    }
}

/// One that gives a reference into it.
fn refers(code: u8, d: Operand, slot: SlotUse) -> Facts
    ensures { result ≡ table.refers code d slot }
{
    Facts {
        uses: Uses {
            slot,
            pointer: PointerUse::Sets,
        },
        ..refusable(
            code,
            Operand::Slot,
            Operand::Pointer,
            Operand::Word,
            d,
            Operand::Number,
        )
    }
}

/// A call that tells a word, which word a gets.
fn tells(code: u8, b: Operand, c: Operand) -> Facts
    ensures { result ≡ table.tells code b c }
{
    use Operand::{Unused, Word};
    Facts {
        yields: Yields::WordInA,
        ..refusable(code, Word, b, c, Unused, Unused)
    }
}

/// A call on an item of a group, whose handles words have.
fn item_call(code: u8, c: Operand, d: Operand, yields: Yields) -> Facts
    ensures { result ≡ table.item_call code c d yields }
{
    use Operand::{Unused, Word};
    Facts {
        uses: slot_uses(SlotUse::MovesGroup),
        yields,
        ..refusable(code, Word, Word, c, d, Unused)
    }
}

/// One that writes the VM file.
fn commits(code: u8) -> Facts
    ensures { result ≡ table.commits code }
{
    use Operand::Unused;
    Facts {
        uses: slot_uses(SlotUse::Commits),
        ..refusable(code, Unused, Unused, Unused, Unused, Unused)
    }
}

/// One through pointer b.
fn accesses(code: u8, offset: Offset) -> Facts
    ensures { result ≡ table.accesses code offset }
{
    use Operand::{Number, Pointer, Unused, Word};
    match offset {
        Offset::Fixed => plain(code, Word, Pointer, Unused, Number),
        Offset::Indexed => plain(code, Word, Pointer, Word, Unused),
        Offset::Tested => refusable(code, Word, Pointer, Word, Unused, Unused),
    }
}

/// One that reads through it.
fn load(code: u8, width: Width, offset: Offset) -> Facts
    ensures { result ≡ table.load code width offset }
{
    Facts {
        uses: pointer_uses(PointerUse::Loads(width, offset)),
        yields: match width {
            Width::Byte => Yields::ByteInA,
            Width::Both => Yields::WordInA,
        },
        ..accesses(code, offset)
    }
}

/// One that writes through it.
fn store(code: u8, width: Width, offset: Offset) -> Facts
    ensures { result ≡ table.store code width offset }
{
    Facts {
        uses: pointer_uses(PointerUse::Stores(width, offset)),
        ..accesses(code, offset)
    }
}

/// Another one on pointer b.
fn pointing(code: u8, a: Operand, imm: Operand, pointer: PointerUse, yields: Yields) -> Facts
    ensures { result ≡ table.pointing code a imm pointer yields }
{
    Facts {
        uses: pointer_uses(pointer),
        yields,
        ..plain(code, a, Operand::Pointer, Operand::Unused, imm)
    }
}

impl Opcode {
    /// What there is to know of the opcode.
    // In place, so that who looks at one fact reads no row of the table but that fact of it.
    #[inline(always)]
    pub fn facts(self) -> Facts
        ensures { result ≡ table.facts self }
    {
        use CounterUse::{CountsDown, SetTo, SetToWord};
        use Flow::{Calls, Jumps, Returns};
        use Kind::{DbGroup, MemBlock, VmBlock};
        use Offset::{Fixed, Indexed, Tested};
        use Operand::{Counter, Number, Pointer, Routine, Shift, Slot, Unused, Word};
        use PointerUse::{Copies, Duplicates, Measures};
        use SlotUse::{Compares, Locks, LocksNew, LooksAt, Marks, Moves, Unlocks};
        use Width::{Both, Byte};
        use Yields::{Computed, Nothing, WordInA, WordInAAndB, WordInB};
        match self {
            Opcode::Ldi => computes(0x01, Word, Unused, Unused, Number),
            Opcode::Mov => computes(0x02, Word, Word, Unused, Unused),
            Opcode::Add => computes(0x03, Word, Word, Word, Unused),
            Opcode::Sub => computes(0x04, Word, Word, Word, Unused),
            Opcode::And => computes(0x05, Word, Word, Unused, Number),
            Opcode::Shr => computes(0x06, Word, Word, Unused, Shift),
            Opcode::Muli => computes(0x07, Word, Word, Unused, Number),
            Opcode::Chk => Facts {
                yields: Computed,
                ..branch(0x08, Word, Unused, Number)
            },
            Opcode::Jmp => Facts {
                flow: Jumps,
                ..branch(0x09, Unused, Unused, Unused)
            },
            Opcode::Beq => branch(0x0a, Word, Word, Unused),
            Opcode::Blt => branch(0x0b, Word, Word, Unused),
            Opcode::Setk => Facts {
                counter: SetTo,
                ..plain(0x0c, Counter, Unused, Unused, Number)
            },
            Opcode::Setkw => Facts {
                counter: SetToWord,
                ..plain(0x0d, Counter, Word, Unused, Unused)
            },
            Opcode::Loop => Facts {
                counter: CountsDown,
                ..branch(0x0e, Counter, Unused, Unused)
            },
            Opcode::Call => Facts {
                flow: Calls,
                ..plain(0x0f, Unused, Unused, Unused, Routine)
            },
            Opcode::Ret => Facts {
                flow: Returns,
                ..plain(0x10, Unused, Unused, Unused, Unused)
            },
            Opcode::Out => refusable(0x11, Word, Unused, Unused, Unused, Unused),
            Opcode::Mnew => block_call(
                0x12,
                Word,
                Unused,
                Unused,
                Unused,
                LocksNew(MemBlock),
                WordInB,
            ),
            Opcode::Mlock => block_call(
                0x13,
                Word,
                Unused,
                Unused,
                Unused,
                Locks(MemBlock),
                Nothing,
            ),
            Opcode::Munlock => on_slot(0x14, Unused, Unlocks(MemBlock)),
            Opcode::Mfree => refusable(0x15, Word, Unused, Unused, Unused, Unused),
            Opcode::Sne => Facts {
                uses: slot_uses(Compares),
                ..branch(0x16, Slot, Slot, Unused)
            },
            Opcode::Lalloc => block_call(0x17, Word, Word, Unused, Unused, Moves, WordInB),
            Opcode::Lfree => block_call(0x18, Word, Unused, Unused, Unused, Moves, Nothing),
            Opcode::Lrealloc => block_call(0x19, Word, Word, Unused, Unused, Moves, Nothing),
            Opcode::Lins => block_call(0x1a, Word, Word, Word, Unused, Moves, Nothing),
            Opcode::Ldel => block_call(0x1b, Word, Word, Word, Unused, Moves, Nothing),
            Opcode::Lsize => block_call(0x1c, Word, Word, Unused, Unused, LooksAt, WordInB),
            Opcode::Deref => refers(0x1d, Unused, LooksAt),
            Opcode::Lcontract => on_slot(0x1e, Unused, Moves),
            Opcode::Ldb => load(0x1f, Byte, Fixed),
            Opcode::Ldw => load(0x20, Both, Fixed),
            Opcode::Stb => store(0x21, Byte, Fixed),
            Opcode::Stw => store(0x22, Both, Fixed),
            Opcode::Ldxb => load(0x23, Byte, Indexed),
            Opcode::Ldxw => load(0x24, Both, Indexed),
            Opcode::Stxb => store(0x25, Byte, Indexed),
            Opcode::Stxw => store(0x26, Both, Indexed),
            Opcode::Ldcb => load(0x27, Byte, Tested),
            Opcode::Ldcw => load(0x28, Both, Tested),
            Opcode::Stcb => store(0x29, Byte, Tested),
            Opcode::Stcw => store(0x2a, Both, Tested),
            Opcode::Movp => pointing(0x2b, Pointer, Unused, Duplicates, Nothing),
            Opcode::Copy => pointing(0x2c, Pointer, Number, Copies, Nothing),
            Opcode::Plen => pointing(0x2d, Word, Unused, Measures, WordInA),
            Opcode::Canew => block_call(0x2e, Word, Unused, Unused, Number, Moves, WordInB),
            Opcode::Caadd => block_call(0x2f, Word, Word, Unused, Unused, Moves, Nothing),
            Opcode::Cains => block_call(0x30, Word, Word, Word, Unused, Moves, Nothing),
            Opcode::Cadel => block_call(0x31, Word, Word, Unused, Unused, Moves, Nothing),
            Opcode::Cacount => block_call(0x32, Word, Word, Unused, Unused, LooksAt, WordInB),
            Opcode::Caelt => refers(0x33, Word, LooksAt),
            Opcode::Cazero => block_call(0x34, Word, Unused, Unused, Unused, Moves, Nothing),
            Opcode::Caresize => block_call(0x35, Word, Word, Word, Unused, Moves, Nothing),
            Opcode::Vnew => block_call(
                0x36,
                Word,
                Word,
                Unused,
                Unused,
                LocksNew(VmBlock),
                WordInB,
            ),
            Opcode::Vlock => block_call(
                0x37,
                Word,
                Unused,
                Unused,
                Unused,
                Locks(VmBlock),
                Nothing,
            ),
            Opcode::Vdirty => on_slot(0x38, Unused, Marks(VmBlock)),
            Opcode::Vunlock => on_slot(0x39, Unused, Unlocks(VmBlock)),
            Opcode::Vfree => refusable(0x3a, Word, Unused, Unused, Unused, Unused),
            Opcode::Vfind => tells(0x3b, Word, Word),
            Opcode::Vuid => tells(0x3c, Word, Unused),
            Opcode::Vgetmap => Facts {
                yields: WordInA,
                ..plain(0x3d, Word, Unused, Unused, Unused)
            },
            Opcode::Vsetmap => refusable(0x3e, Word, Unused, Unused, Unused, Unused),
            Opcode::Vupdate => commits(0x3f),
            Opcode::Vsave => commits(0x40),
            Opcode::Vrevert => commits(0x41),
            Opcode::Gnew => tells(0x42, Unused, Unused),
            Opcode::Gfree => refusable(0x43, Word, Unused, Unused, Unused, Unused),
            Opcode::Inew => item_call(0x44, Word, Unused, WordInA),
            Opcode::Ifree => item_call(0x45, Unused, Unused, Nothing),
            Opcode::Irealloc => item_call(0x46, Word, Unused, Nothing),
            Opcode::Iins => item_call(0x47, Word, Word, Nothing),
            Opcode::Idel => item_call(0x48, Word, Word, Nothing),
            Opcode::Ilock => refers(0x49, Word, Locks(DbGroup)),
            Opcode::Idirty => on_slot(0x4a, Unused, Marks(DbGroup)),
            Opcode::Iunlock => on_slot(0x4b, Unused, Unlocks(DbGroup)),
            Opcode::Igetmap => Facts {
                yields: WordInAAndB,
                ..plain(0x4c, Word, Word, Unused, Unused)
            },
            Opcode::Isetmap => refusable(0x4d, Word, Word, Unused, Unused, Unused),
        }
    }

    /// What its fields hold.
    pub fn operands(self) -> Operands
        ensures { result ≡ table.operands_of self }
    {
        self.facts().operands
    }

    /// What it does with slots and pointers.
    pub fn uses(self) -> Uses
        ensures { result ≡ table.uses_of self }
    {
        self.facts().uses
    }
}
