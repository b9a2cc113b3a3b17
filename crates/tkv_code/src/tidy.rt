//! Jumps that do nothing are left out.

use crate::emitter::Coded;
use geos_opcodes::Opcode;

/// How often code is gone over: each time at most so many jumps are followed.
const ROUNDS: usize = 8;

/// Whether a return is at a pc.
fn returns_at(code: &[Coded], pc: u16) -> bool {
    match code.get(usize::from(pc)) {
        Some(coded) => matches!(coded.instr.opcode, Opcode::Ret),
        None => false,
    }
}

/// Where control comes by jumps on from a pc.
fn followed(code: &[Coded], pc: u16) -> u16 {
    let mut there = pc;
    for _ in 0..ROUNDS {
        match code.get(usize::from(there)) {
            Some(coded) => {
                if !matches!(coded.instr.opcode, Opcode::Jmp) {
                    break;
                }
                there = coded.instr.target;
            }
            None => break,
        }
    }
    there
}

/// Each target is where control comes by jumps; a jump to a return returns.
fn shorten(code: &mut [Coded]) {
    for k in 0..code.len() {
        if code[k].leads {
            let target = followed(code, code[k].instr.target);
            code[k].instr.target = target;
            if matches!(code[k].instr.opcode, Opcode::Jmp) && returns_at(code, target) {
                code[k].instr.opcode = Opcode::Ret;
                code[k].instr.target = 0;
                code[k].leads = false;
            }
        }
    }
}

/// Control comes to an instruction, if it is there.
fn reach(code: &mut [Coded], index: usize) {
    if index < code.len() {
        code[index].reached = true;
    }
}

/// Control comes to the first instruction, and to what a LOOP leads back to.
fn reach_first(code: &mut [Coded]) {
    for k in 0..code.len() {
        code[k].reached = false;
    }
    reach(code, 0);
    for k in 0..code.len() {
        let instr = code[k].instr;
        if matches!(instr.opcode, Opcode::Loop) {
            reach(code, usize::from(instr.target));
        }
    }
}

/// Control comes from each instruction to those that follow it.
fn reach_others(code: &mut [Coded]) {
    for k in 0..code.len() {
        let Coded {
            instr,
            leads,
            reached,
            ..
        } = code[k];
        if reached && !matches!(instr.opcode, Opcode::Jmp | Opcode::Ret) {
            reach(code, k + 1);
        }
        if reached && leads {
            reach(code, usize::from(instr.target));
        }
    }
}

/// Whether no instruction that control comes to is between a jump and its target.
fn jumps_on(code: &[Coded], k: usize, target: usize) -> bool {
    if target <= k || target > code.len() {
        return false;
    }
    for at in k + 1..target {
        if code[at].reached {
            return false;
        }
    }
    true
}

/// Gives each instruction its new pc. Jumps to what is next are left out.
fn number(code: &mut [Coded]) {
    let mut pc: u16 = 0;
    for k in 0..code.len() {
        let instr = code[k].instr;
        if matches!(instr.opcode, Opcode::Jmp) && jumps_on(code, k, usize::from(instr.target)) {
            code[k].reached = false;
        }
        code[k].pc = pc;
        if code[k].reached {
            pc = pc.saturating_add(1);
        }
    }
}

/// Each target becomes the new pc there.
fn aim(code: &mut [Coded]) {
    for k in 0..code.len() {
        if code[k].leads {
            let target = usize::from(code[k].instr.target);
            code[k].instr.target = if target < code.len() {
                code[target].pc
            } else {
                0
            };
        }
    }
}

/// Leaves out what control does not come to.
fn leave_out(code: &mut Vec<Coded>) {
    let mut count = 0;
    for k in 0..code.len() {
        if code[k].reached && count <= k {
            code[count] = code[k];
            count += 1;
        }
    }
    code.truncate(count);
}

/// Leaves out the jumps that do nothing.
pub(crate) fn tidy(code: &mut Vec<Coded>) {
    for _ in 0..ROUNDS {
        let before = code.len();
        shorten(code);
        reach_first(code);
        reach_others(code);
        number(code);
        aim(code);
        leave_out(code);
        if code.len() == before {
            break;
        }
    }
}
