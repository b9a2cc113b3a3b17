//! Instructions of a placed routine.

use crate::tidy::tidy;
use geos_image::Instr;
use geos_opcodes::Opcode;
use std::alloc::Global;
use tkv_places::{Placed, PlacedKind};
use tkv_syntax::{Fault, Why};

/// An instruction, and where the source says it.
#[derive(Clone, Copy)]
pub(crate) struct Coded {
    /// Its target is a label until all items are coded, then a pc of the routine.
    pub instr: Instr,
    /// Whether it has a target.
    pub leads: bool,
    pub at: u32,
    /// Whether control comes to it, and its pc without what is left out: as far as `tidy` has found.
    pub reached: bool,
    pub pc: u16,
}

/// A place that instructions lead to.
#[derive(Clone, Copy)]
struct Label {
    pc: u16,
    used: bool,
}

/// What has begun and not ended.
#[derive(Clone, Copy)]
struct Open {
    kind: PlacedKind,
    instr: Instr,
    /// The label of its end.
    end: u16,
    /// The label of a loop's first instruction, and of the one that counts.
    head: u16,
    test: u16,
}

/// One way out of a closing: what gives the lock back, and where control goes then.
#[derive(Clone, Copy)]
struct Rung {
    /// The number of the closing, and of the block that is left to.
    owner: u16,
    level: u16,
    /// The label of the rung.
    label: u16,
}

/// A rung whose place is not chosen yet.
#[derive(Clone, Copy)]
struct Waiting {
    label: u16,
    instr: Instr,
    to: u16,
    at: u32,
}

/// A routine that is being coded. After the first fault its code does not matter.
#[derive(Drop)]
struct Emitter {
    code: Vec<Coded>,
    labels: Vec<Label>,
    begun: Vec<Open>,
    rungs: Vec<Rung>,
    waiting: Vec<Waiting>,
    /// Whether control comes to the next instruction.
    reached: bool,
    /// The first fault, if there is one.
    fault: Option<Fault>,
}

/// The most instructions and labels of a routine.
const MOST: usize = 16_384;

/// A jump, whose target is set elsewhere.
fn jump() -> Instr {
    Instr {
        a: 0,
        b: 0,
        c: 0,
        opcode: Opcode::Jmp,
        d: 0,
        imm: 0,
        target: 0,
    }
}

impl Emitter {
    /// Keeps a fault, if it is the first one.
    fn refuse(&mut self, why: Why, at: u32) {
        if self.fault.is_none() {
            self.fault = Some(Fault::new(why, at));
        }
    }

    fn label(&mut self, at: u32) -> u16 {
        let label = self.labels.len();
        if label >= MOST {
            self.refuse(Why::TooMany, at);
            return 0;
        }
        if self.labels.push(Label { pc: 0, used: false }).is_err() {
            self.refuse(Why::Memory, at);
        }
        label as u16
    }

    /// Adds an instruction, if control comes to it.
    fn add(&mut self, instr: Instr, leads: bool, at: u32) {
        if !self.reached {
            return;
        }
        if self.code.len() >= MOST {
            return self.refuse(Why::TooMany, at);
        }
        if leads && let Some(there) = self.labels.get_mut(usize::from(instr.target)) {
            there.used = true;
        }
        self.reached = !matches!(instr.opcode, Opcode::Jmp | Opcode::Ret);
        let coded = Coded {
            instr,
            leads,
            at,
            reached: true,
            pc: 0,
        };
        if self.code.push(coded).is_err() {
            self.refuse(Why::Memory, at);
        }
    }

    /// Adds an instruction after which control continues.
    fn emit(&mut self, instr: Instr, at: u32) {
        self.add(instr, false, at);
    }

    /// Adds an instruction that may lead to a label.
    fn emit_to(&mut self, instr: Instr, label: u16, at: u32) {
        let mut aimed = instr;
        aimed.target = label;
        self.add(aimed, true, at);
    }

    /// Puts the label before the next instruction.
    fn set_here(&mut self, label: u16) {
        let pc = self.code.len().min(65_535) as u16;
        if let Some(there) = self.labels.get_mut(usize::from(label)) {
            there.pc = pc;
            if there.used {
                self.reached = true;
            }
        }
    }

    /// Puts all waiting rungs here, where control does not fall through. Those of an inner closing come first, since they lead to the
    /// others.
    fn put_waiting(&mut self) {
        for k in 0..self.waiting.len() {
            let Some(rung) = self.waiting.get(k).copied() else {
                break;
            };
            self.set_here(rung.label);
            self.emit(rung.instr, rung.at);
            self.emit_to(jump(), rung.to, rung.at);
        }
        self.waiting.truncate(0);
    }

    /// Puts the label here, after the rungs that lead to it.
    fn put_label(&mut self, label: u16, at: u32) {
        let mut awaited = false;
        for rung in &self.waiting {
            awaited = awaited || rung.to == label;
        }
        if awaited {
            self.emit_to(jump(), label, at);
            self.put_waiting();
        }
        self.set_here(label);
    }

    /// The rung of a closing by which control leaves to a block.
    fn rung(&mut self, owner: u16, level: u16, at: u32) -> u16 {
        for rung in &self.rungs {
            if rung.owner == owner && rung.level == level {
                return rung.label;
            }
        }
        let rung = Rung {
            owner,
            level,
            label: self.label(at),
        };
        if self.rungs.push(rung).is_err() {
            self.refuse(Why::Memory, at);
        }
        rung.label
    }

    /// The label by which control leaves to the end of a block: that of a rung, if a closing is on the way.
    fn way(&mut self, level: u16, at: u32) -> u16 {
        let count = self.begun.len();
        for k in 0..count {
            let index = count - 1 - k;
            let Some(open) = self.begun.get(index).copied() else {
                break;
            };
            if index == usize::from(level) {
                return open.end;
            }
            if matches!(open.kind, PlacedKind::Closing) && index < MOST {
                return self.rung(index as u16, level, at);
            }
        }
        self.refuse(Why::Unreached, at);
        0
    }

    fn begin(&mut self, placed: &Placed) {
        let at = placed.at;
        let open = Open {
            kind: placed.kind,
            instr: placed.instr,
            end: self.label(at),
            head: self.label(at),
            test: self.label(at),
        };
        if self.begun.push(open).is_err() {
            self.refuse(Why::Memory, at);
        }
        if matches!(placed.kind, PlacedKind::Count) {
            self.emit_to(jump(), open.test, at);
            // The instruction that counts leads here.
            self.reached = true;
        }
        self.set_here(open.head);
    }

    /// Takes a rung of a closing away, if one is left.
    fn take_rung(&mut self, owner: u16) -> Option<Rung> {
        for k in 0..self.rungs.len() {
            if self.rungs[k].owner == owner {
                return Some(self.rungs.swap_remove(k));
            }
        }
        None
    }

    /// The rungs of a closing that has ended wait for a place.
    fn let_wait(&mut self, owner: u16, instr: Instr, at: u32) {
        for _ in 0..self.rungs.len() {
            let Some(rung) = self.take_rung(owner) else {
                break;
            };
            let waiting = Waiting {
                label: rung.label,
                instr,
                to: self.way(rung.level, at),
                at,
            };
            if self.waiting.push(waiting).is_err() {
                self.refuse(Why::Memory, at);
            }
        }
    }

    fn end(&mut self, placed: &Placed) {
        let at = placed.at;
        let Some(open) = self.begun.pop() else {
            return self.refuse(Why::Unreached, at);
        };
        match open.kind {
            PlacedKind::Closing => {
                self.emit(open.instr, at);
                let owner = self.begun.len().min(65_535) as u16;
                self.let_wait(owner, open.instr, at);
            }
            PlacedKind::Loop | PlacedKind::Count => {
                self.put_label(open.test, at);
                if placed.to != 0 {
                    self.emit_to(open.instr, open.head, at);
                }
            }
            _ => self.put_label(open.end, at),
        }
    }

    fn take(&mut self, placed: &Placed) {
        match placed.kind {
            PlacedKind::Do => {
                if placed.to == u16::MAX {
                    return self.emit(placed.instr, placed.at);
                }
                let to = self.way(placed.to, placed.at);
                self.emit_to(placed.instr, to, placed.at);
            }
            PlacedKind::Leave => {
                let to = self.way(placed.to, placed.at);
                self.emit_to(jump(), to, placed.at);
            }
            PlacedKind::End => self.end(placed),
            _ => self.begin(placed),
        }
    }

    /// Codes the items. Each label becomes its pc.
    fn take_all(&mut self, placed: &[Placed]) {
        for item in placed {
            if self.fault.is_some() {
                break;
            }
            self.take(item);
        }
        for k in 0..self.code.len() {
            if self.code[k].leads
                && let Some(label) = self.labels.get(usize::from(self.code[k].instr.target))
            {
                self.code[k].instr.target = label.pc;
            }
        }
        tidy(&mut self.code);
    }
}

/// The instructions of a placed routine, with pcs of the routine as targets, without jumps that do nothing.
pub(crate) fn code_of(alloc: Global, placed: &[Placed]) -> Result<Vec<Coded>, Fault> {
    let mut emitter = Emitter {
        code: Vec::new(alloc),
        labels: Vec::new(alloc),
        begun: Vec::new(alloc),
        rungs: Vec::new(alloc),
        waiting: Vec::new(alloc),
        reached: true,
        fault: None,
    };
    emitter.take_all(placed);
    match emitter.fault {
        Some(fault) => Err(fault),
        None => Ok(emitter.code),
    }
}
