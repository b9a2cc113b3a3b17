//! Ways out of constructs.

use crate::placed::{NOWHERE, with_number};
use crate::placer::{Construct, Placer, Running};
use crate::state::{WHY, bit};
use geos_opcodes::Opcode;
use tkv_syntax::{Item, Why};

impl Placer {
    /// The innermost routine, with the place of its block and its result.
    fn innermost_routine(&mut self, at: u32) -> Option<Running> {
        let running = self.running.last().copied();
        if running.is_none() {
            self.refuse(Why::Unreached, at);
        }
        running
    }

    /// The outermost block of the innermost construct of the routine that takes refusals, or of its innermost loop. `NOWHERE` if there is none.
    fn level_around(&self, takes_refusals: bool) -> u16 {
        let mut level = NOWHERE;
        for frame in &self.frames {
            match frame.construct {
                Construct::Try if takes_refusals => level = frame.level,
                Construct::Turns | Construct::For if !takes_refusals => level = frame.level,
                Construct::Routine | Construct::Inlined => level = NOWHERE,
                _ => {}
            }
        }
        level
    }

    /// The target of a refusal with `?`, and of `fail`.
    pub(crate) fn way_out(&mut self, at: u32) -> u16 {
        let level = self.level_around(true);
        if level != NOWHERE {
            return level.saturating_add(1);
        }
        match self.innermost_routine(at) {
            Some(running) if running.refusable => running.fails,
            Some(running) => {
                if running.gives != 0 {
                    self.refuse(Why::NoWayOut, at);
                }
                running.level
            }
            None => NOWHERE,
        }
    }

    /// Control leaves the innermost loop of the routine, or an iteration of it: to the end of the block so many levels below the outer
    /// block around the loop.
    pub(crate) fn leave_loop(&mut self, below: u16, at: u32) {
        let level = self.level_around(false);
        if level == NOWHERE {
            self.refuse(Why::NoLoop, at);
        }
        self.leave(level.saturating_add(below), at);
    }

    /// `fail`, with a number if one is before it.
    pub(crate) fn fail(&mut self, item: &Item) {
        let at = item.at;
        if item.a != 0 {
            let operand = self.operand(0, at);
            let number = self.number_of(operand);
            if number == 0 {
                return self.refuse(Why::FailZero, at);
            }
            self.act(with_number(Opcode::Ldi, WHY, 0, number), at);
            self.state.facts |= bit(WHY);
        }
        self.clear();
        let to = self.way_out(at);
        self.leave(to, at);
    }

    /// `return`, with the results of the routine.
    pub(crate) fn give_back(&mut self, item: &Item) {
        let at = item.at;
        let Some(running) = self.innermost_routine(at) else {
            return;
        };
        if u32::from(running.gives) != item.a {
            return self.refuse_returns(running.gives, at);
        }
        if self.operand_count() != usize::from(running.gives) {
            return self.refuse(Why::ExpectedValue, at);
        }
        self.move_results(&running, at);
        self.clear();
        self.leave(running.level, at);
    }

    /// What takes refusals begins: a block around all, one around what may be refused, and one around that, to whose end tests of indexes leave.
    /// The number of the first.
    pub(crate) fn attempt(&mut self, construct: Construct, at: u32) -> u16 {
        if !self.state.alive {
            self.refuse(Why::Unreached, at);
        }
        let mut frame = self.frame(construct, at);
        frame.level = self.block(at);
        self.block(at);
        self.block(at);
        self.begin(frame);
        frame.level
    }

    /// What may be refused is over, and what takes refusals follows.
    pub(crate) fn attempted(&mut self, at: u32) {
        let frame = self.innermost(at);
        self.leave_if_alive(frame.level, at);
        self.indexes_end(at);
        self.end(at);
        if matches!(frame.construct, Construct::Try) {
            self.restore(&frame);
        }
        if !self.state.alive {
            self.refuse(Why::NothingRefused, at);
        }
        self.turn_into(Construct::Tried);
    }

    /// A statement begins.
    pub(crate) fn begin_statement(&mut self, item: &Item) {
        self.clear();
        self.asks = item.b != 0;
        self.handler = NOWHERE;
        if item.a != 0 {
            let level = self.attempt(Construct::Handler, item.at);
            self.handler = level.saturating_add(1);
        }
    }

    /// The handler of a statement begins. Names of the statement stay known.
    pub(crate) fn handle(&mut self, at: u32) {
        self.clear();
        self.attempted(at);
        self.handler = NOWHERE;
        let (named, pointers, symbols) = (self.named, self.named_pointers, self.symbols.len());
        if let Some(frame) = self.frames.last_mut() {
            frame.named = named;
            frame.pointers = pointers;
            frame.symbols = symbols;
        }
    }
}
