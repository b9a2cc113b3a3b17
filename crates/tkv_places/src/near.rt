//! Calls of a name that nothing has: the routine or instruction with nearly this name.

use crate::declarations::{Declared, Kind, is_call, is_lock};
use geos_opcodes::OPCODES;
use tkv_syntax::{Fault, Name, Why};

/// A byte of a name in lower case, or 0 past its end.
fn byte_at(name: &[u8], k: usize) -> u8 {
    match name.get(k) {
        Some(byte) => byte.to_ascii_lowercase(),
        None => 0,
    }
}

/// Whether the bytes from one place on are those of another name from another place on.
fn is_same_from(one: &[u8], i: usize, other: &[u8], j: usize) -> bool {
    for k in 0..16 {
        if byte_at(one, i.saturating_add(k)) != byte_at(other, j.saturating_add(k)) {
            return false;
        }
    }
    true
}

/// How many bytes two names have in common at their front.
fn common(one: &[u8], other: &[u8]) -> usize {
    let mut count = 0;
    for k in 0..16 {
        let byte = byte_at(one, k);
        if byte == 0 || byte != byte_at(other, k) {
            break;
        }
        count = k + 1;
    }
    count
}

/// Whether a name of at least three letters differs from another one only in one letter
/// that is wrong, missing or too many, in two letters that are swapped, or in case.
fn is_near(name: &[u8], other: &[u8]) -> bool {
    let at = common(name, other);
    let next = at.saturating_add(1);
    let after = at.saturating_add(2);
    let swapped = byte_at(name, at) == byte_at(other, next)
        && byte_at(name, next) == byte_at(other, at)
        && is_same_from(name, after, other, after);
    byte_at(name, 2) != 0
        && (swapped
            || is_same_from(name, next, other, next)
            || is_same_from(name, next, other, at)
            || is_same_from(name, at, other, next))
}

/// The code of the instruction that has nearly this name; 0 if none has.
fn near_instruction(name: &Name) -> u16 {
    for opcode in &OPCODES {
        let called = is_call(*opcode) || is_lock(*opcode);
        if called && is_near(&name[..], opcode.word().as_bytes()) {
            return u16::from(opcode.code());
        }
    }
    0
}

impl Declared {
    /// The fault of a call of a name that neither a routine nor an instruction has.
    pub(crate) fn no_call(&self, name: &Name, at: u32) -> Fault {
        for global in &self.globals {
            if matches!(global.kind, Kind::Routine) && is_near(&name[..], &global.name[..]) {
                return Fault {
                    other: global.at,
                    number: u16::MAX,
                    ..Fault::new(Why::NoCall, at)
                };
            }
        }
        Fault {
            number: near_instruction(name),
            ..Fault::new(Why::NoCall, at)
        }
    }
}
