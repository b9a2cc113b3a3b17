//! The operands of instructions.

ghost use Rattle.std.specs.Prelude.{◌≡◌, ◌≤◌, IfOk};
ghost use Rattle.std.specs.Option.{ok_or};
ghost use Rattle.geos_opcodes.specs.Fields.{is_written};
ghost use Rattle.geos_text.specs.Words.{words};
ghost use Rattle.geos_source.specs.declared.fault.Why.TheVariants.{WrongOperands};
ghost use Rattle.geos_source.specs.Faults.{least};
ghost use Rattle.geos_source.specs.Operands.{numbered, register_value, constant_value, register, constant};
ghost use Rattle.geos_source.specs.Operands.{left_over, instruction, instr_of};
ghost use Rattle.geos_source.specs.Readings.{reading_of, names_of};

use crate::fault::{Why, least};
use crate::names::Table;
use geos_image::Instr;
use geos_opcodes::{Opcode, Operand};
use geos_text::{NumberError, first_word, number_up_to, register};

/// The names of a text: labels and routines are two sets of names.
#[derive(Drop)]
pub(crate) struct Names {
    /// The pc that each label stands for.
    pub labels: Table,
    /// The index of each routine.
    pub routines: Table,
}

/// The words of a line that are not read yet, and the least fault of those that are.
#[derive(Clone, Copy)]
pub(crate) struct Reading<'a> {
    pub rest: &'a [u8],
    pub fault: Option<Why>,
}

impl<'a> Reading<'a> {
    /// What is left where a word was read, or was missing.
    fn after(self, rest: &'a [u8], why: Option<Why>) -> Reading<'a>
        ensures rest { result.rest.now ≡ rest.now }
        ensures fault { result.fault ≡ least self.entry.fault why }
    {
        Reading {
            rest,
            fault: least(self.fault, why),
        }
    }
}

/// A number in decimal digits, up to the greatest one.
pub(crate) fn numbered(greatest: u32, word: &[u8]) -> Result<u32, Why>
    ensures value { result ≡ numbered greatest word.now }
    ensures within { IfOk result (λ number. number ≤ greatest) }
{
    match number_up_to(greatest, word) {
        Ok(number) => Ok(number),
        Err(NumberError::Malformed) => Err(Why::WrongOperands),
        Err(NumberError::TooLarge) => Err(Why::OutOfRange),
    }
}

/// A number of 16 bits.
pub(crate) fn short(greatest: u16, word: &[u8]) -> Result<u16, Why>
    ensures { result ≡ numbered greatest word.now }
{
    match numbered(u32::from(greatest), word) {
        Ok(number) => Ok(number as u16),
        Err(why) => Err(why),
    }
}

fn or_wrong(number: Option<u8>) -> Result<u8, Why>
    ensures { result ≡ ok_or number WrongOperands }
{
    match number {
        Some(number) => Ok(number),
        None => Err(Why::WrongOperands),
    }
}

/// The number of a register of this kind.
fn register_value(kind: Operand, word: &[u8]) -> Result<u8, Why>
    ensures { result ≡ register_value kind word.now }
{
    match kind {
        Operand::Word => or_wrong(register(b'w', 8, word)),
        Operand::Counter => or_wrong(register(b'k', 4, word)),
        Operand::Slot => or_wrong(register(b's', 4, word)),
        Operand::Pointer => or_wrong(register(b'p', 4, word)),
        Operand::Unused | Operand::Number | Operand::Shift | Operand::Routine | Operand::Label =>
            Err(Why::WrongOperands),
    }
}

/// What a number, a routine or a label stands for.
fn constant_value(names: &Names, kind: Operand, word: &[u8]) -> Result<u16, Why>
    ensures { result ≡ constant_value (names_of names.now) kind word.now }
{
    match kind {
        Operand::Number => short(65_535, word),
        Operand::Shift => short(15, word),
        Operand::Routine => names.routines.resolve(word),
        Operand::Label => names.labels.resolve(word),
        Operand::Unused | Operand::Word | Operand::Counter | Operand::Slot | Operand::Pointer =>
            Err(Why::WrongOperands),
    }
}

/// A text writes an operand for a field that is used.
fn is_written(kind: Operand) -> bool
    ensures { result ≡ is_written kind }
{
    !matches!(kind, Operand::Unused)
}

/// The operand of one of the fields a, b, c and d, and what is left. A field that is not used
/// takes no word, and is 0.
#[tactic(auto, unfolding(crate::specs::Operands::register))]
fn register_operand(kind: Operand, reading: Reading) -> (u8, Reading)
    ensures { register kind (reading_of reading.entry) ≡ record { value = result.0; rest = reading_of result.1 } }
{
    if !is_written(kind) {
        return (0, reading);
    }
    match first_word(reading.rest) {
        None => (0, reading.after(reading.rest, Some(Why::WrongOperands))),
        Some((word, rest)) => match register_value(kind, word) {
            Ok(value) => (value, reading.after(rest, None)),
            Err(why) => (0, reading.after(rest, Some(why))),
        },
    }
}

/// The operand of one of the fields imm and target, and what is left.
#[tactic(auto, unfolding(crate::specs::Operands::constant))]
fn constant_operand<'a>(names: &Names, kind: Operand, reading: Reading<'a>) -> (u16, Reading<'a>)
    ensures { constant (names_of names.now) kind (reading_of reading.entry) ≡ record { value = result.0; rest = reading_of result.1 } }
{
    if !is_written(kind) {
        return (0, reading);
    }
    match first_word(reading.rest) {
        None => (0, reading.after(reading.rest, Some(Why::WrongOperands))),
        Some((word, rest)) => match constant_value(names, kind, word) {
            Ok(value) => (value, reading.after(rest, None)),
            Err(why) => (0, reading.after(rest, Some(why))),
        },
    }
}

/// A fault where a word is left.
fn left_over(rest: &[u8]) -> Option<Why>
    ensures { result ≡ left_over (words rest.now) }
{
    match first_word(rest) {
        None => None,
        Some(_) => Some(Why::WrongOperands),
    }
}

/// The instruction of an opcode with those operands.
fn instr_of(names: &Names, opcode: Opcode, operands: &[u8]) -> Result<Instr, Why>
    ensures { result ≡ instr_of (names_of names.now) opcode (words operands.now) }
{
    let kinds = opcode.operands();
    let start = Reading {
        rest: operands,
        fault: None,
    };
    let (a, rest) = register_operand(kinds.a, start);
    let (b, rest) = register_operand(kinds.b, rest);
    let (c, rest) = register_operand(kinds.c, rest);
    let (d, rest) = register_operand(kinds.d, rest);
    let (imm, rest) = constant_operand(names, kinds.imm, rest);
    let (target, rest) = constant_operand(names, kinds.target, rest);
    match least(rest.fault, left_over(rest.rest)) {
        Some(why) => Err(why),
        None => Ok(Instr {
            opcode,
            a,
            b,
            c,
            d,
            imm,
            target,
        }),
    }
}

/// The instruction that a word and its operands write. `UnknownWord` if the word is no
/// opcode's; otherwise the least fault of the operands, which is `WrongOperands` if they are too
/// few or too many.
#[tactic(auto, unfolding(crate::specs::Operands::instruction))]
pub(crate) fn instruction(names: &Names, word: &[u8], operands: &[u8]) -> Result<Instr, Why>
    ensures { result ≡ instruction (names_of names.now) word.now (words operands.now) }
{
    match Opcode::from_word(word) {
        None => Err(Why::UnknownWord),
        Some(opcode) => instr_of(names, opcode, operands),
    }
}
