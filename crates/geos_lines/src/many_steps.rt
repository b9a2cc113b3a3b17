//! Which CALL and which counters make the steps of a routine pass the greatest budget.

ghost use Rattle.std.specs.Prelude.{◌≡◌, Some};
ghost use Rattle.geos_lines.specs.ManySteps.{budget_of, budget_paid, number_of, number_set};

use geos_flow::Cause;
use geos_image::Instr;
use geos_opcodes::Opcode;
use geos_source::{Parsed, TextRoutine};
use sentence_text::Text;
use std::alloc::{AllocError, Global};

/// The instructions of a routine, from one pc up to another.
#[derive(Clone, Copy)]
struct Span {
    start: usize,
    end: usize,
}

impl Span {
    /// Those of the routine that begins on a line.
    fn at_line(routines: &[TextRoutine], line: usize) -> Span {
        let mut start: usize = 0;
        for routine in routines {
            let end = start.saturating_add(usize::from(routine.routine.count));
            if routine.line == line {
                return Span { start, end };
            }
            start = end;
        }
        Span { start, end: start }
    }
}

/// The budget of the routine that an instruction calls.
fn budget_of(i: &Instr, routines: &[TextRoutine]) -> Option<u32>
    ensures { result ≡ budget_of i.now i.now.opcode routines.now }
{
    match i.opcode {
        Opcode::Call => match routines.get(usize::from(i.imm)) {
            Some(callee) => Some(callee.routine.budget),
            None => None,
        },
        _ => None,
    }
}

/// The same of the instruction at a pc.
fn budget_paid(instrs: &[Instr], routines: &[TextRoutine], pc: usize) -> Option<u32>
    ensures { result ≡ budget_paid instrs.now routines.now pc }
{
    match instrs.get(pc) {
        Some(i) => budget_of(i, routines),
        None => None,
    }
}

/// The number that an instruction sets a counter to.
fn number_of(i: &Instr, k: u8) -> Option<u16>
    ensures { result ≡ number_of i.now i.now.opcode k }
{
    match i.opcode {
        Opcode::Setk => if i.a == k { Some(i.imm) } else { None },
        _ => None,
    }
}

/// The same of the instruction at a pc.
fn number_set(instrs: &[Instr], pc: usize, k: u8) -> Option<u16>
    ensures { result ≡ number_set instrs.now pc k }
{
    match instrs.get(pc) {
        Some(i) => number_of(i, k),
        None => None,
    }
}

/// The first instruction that sets a counter to its greatest number.
fn greatest_set(instrs: &[Instr], span: Span, k: u8) -> Option<usize> {
    let mut found = None;
    let mut most: u16 = 0;
    for pc in span.start..span.end {
        match number_set(instrs, pc, k) {
            Some(number) if found.is_none() || most < number => {
                found = Some(pc);
                most = number;
            }
            _ => {}
        }
    }
    found
}

/// How often a loop of a counter runs at most, by the numbers that the counter is set to.
fn rounds_of(instrs: &[Instr], span: Span, k: u8) -> u64 {
    match greatest_set(instrs, span, k) {
        Some(pc) => u64::from(number_set(instrs, pc, k).unwrap_or(0)).saturating_add(1),
        None => 1,
    }
}

/// Whether an instruction is a LOOP that leads from one pc back to another one, or before it.
fn leads_back(i: &Instr, from: usize, to: usize) -> bool {
    i.opcode == Opcode::Loop && usize::from(i.target) <= to && to <= from
}

/// Whether a loop of the counter is around a pc, by the order of the lines.
fn is_around(instrs: &[Instr], span: Span, pc: usize, k: u8) -> bool {
    for from in pc..span.end {
        if let Some(i) = instrs.get(from)
            && i.a == k
            && leads_back(i, from, pc)
        {
            return true;
        }
    }
    false
}

/// What the steps of a routine come from.
#[derive(Clone, Copy)]
struct Weighed<'p> {
    parsed: &'p Parsed,
    span: Span,
    /// How often a loop of each counter runs at most.
    rounds: [u64; 4],
}

impl<'p> Weighed<'p> {
    fn new(parsed: &'p Parsed, span: Span) -> Weighed<'p> {
        let instrs: &[Instr] = &parsed.instrs;
        Weighed {
            parsed,
            span,
            rounds: [
                rounds_of(instrs, span, 0),
                rounds_of(instrs, span, 1),
                rounds_of(instrs, span, 2),
                rounds_of(instrs, span, 3),
            ],
        }
    }

    /// How often the loops of a counter let an instruction run.
    fn rounds_at(&self, pc: usize, k: u8) -> u64 {
        if is_around(&self.parsed.instrs, self.span, pc, k) {
            self.rounds.get(usize::from(k)).copied().unwrap_or(1)
        } else {
            1
        }
    }

    /// About how many steps an instruction takes in all.
    fn weight(&self, pc: usize) -> u64 {
        let budget = budget_paid(&self.parsed.instrs, &self.parsed.routines, pc).unwrap_or(0);
        let mut weight = u64::from(budget).saturating_add(1);
        for k in 0..4 {
            weight = weight.saturating_mul(self.rounds_at(pc, k));
        }
        weight
    }

    /// The first instruction that takes most steps in all.
    fn heaviest(&self) -> usize {
        let mut found = self.span.start;
        let mut most: u64 = 0;
        for pc in self.span.start..self.span.end {
            let weight = self.weight(pc);
            if most < weight {
                found = pc;
                most = weight;
            }
        }
        found
    }
}

/// The name of the routine that the instruction at a pc calls.
fn name_called(parsed: &Parsed, pc: usize) -> &[u8] {
    let Some(i) = parsed.instrs.get(pc) else {
        return &[];
    };
    match parsed.routines.get(usize::from(i.imm)) {
        Some(callee) => callee.routine.name_text(),
        None => &[],
    }
}

/// Appends the line of the instruction at a pc.
fn put_line(out: &mut Text, parsed: &Parsed, pc: usize) {
    let line = parsed.lines.get(pc).copied().unwrap_or(0);
    out.put_number(" at line ", u64::from(line))
}

/// Appends that the CALL at a pc pays a budget.
fn put_call(out: &mut Text, parsed: &Parsed, pc: usize, budget: u32)
    requires { budget_paid parsed.now.instrs.items parsed.now.routines.items pc ≡ Some budget }
{
    out.put("; CALL ");
    out.put_bytes(name_called(parsed, pc));
    put_line(out, parsed, pc);
    out.put_number(" pays its budget, ", u64::from(budget));
    out.put(" steps")
}

/// Appends that the instruction at a pc sets a counter to a number.
fn put_set(out: &mut Text, parsed: &Parsed, pc: usize, k: u8, number: u16)
    requires { number_set parsed.now.instrs.items pc k ≡ Some number }
{
    out.put_number("; k", u64::from(k));
    out.put_number(" is set to ", u64::from(number));
    put_line(out, parsed, pc)
}

/// Appends where a counter is set to its greatest number, and returns whether it is set to any.
fn put_counter(out: &mut Text, parsed: &Parsed, span: Span, k: u8) -> bool {
    let Some(pc) = greatest_set(&parsed.instrs, span, k) else {
        return false;
    };
    match number_set(&parsed.instrs, pc, k) {
        Some(number) => {
            put_set(out, parsed, pc, k, number);
            true
        }
        None => false,
    }
}

/// Appends the counters of the loops around a pc, and returns whether there are any. If none is and `all` is true, all counters are named.
fn put_counters(out: &mut Text, parsed: &Parsed, span: Span, pc: usize, all: bool) -> bool {
    let mut any = false;
    for k in 0..4 {
        if is_around(&parsed.instrs, span, pc, k) && put_counter(out, parsed, span, k) {
            any = true;
        }
    }
    if any || !all {
        return any;
    }
    for k in 0..4 {
        if put_counter(out, parsed, span, k) {
            any = true;
        }
    }
    any
}

/// What helps if a CALL is named, or counters are.
fn cure(by_call: bool, by_counters: bool) -> &'static str {
    if by_call == by_counters {
        ": set counters to lower numbers, or call routines with lower budgets\n"
    } else if by_call {
        ": call routines with lower budgets\n"
    } else {
        ": set counters to lower numbers\n"
    }
}

/// Appends the CALL and the counters that make the steps of a routine many, and what helps. Counters count only if the routine may loop.
fn put_many(out: &mut Text, parsed: &Parsed, line: usize, loops: bool) {
    let span = Span::at_line(&parsed.routines, line);
    let pc = Weighed::new(parsed, span).heaviest();
    let by_call = match budget_paid(&parsed.instrs, &parsed.routines, pc) {
        Some(budget) => {
            put_call(out, parsed, pc, budget);
            true
        }
        None => false,
    };
    let by_counters = loops && put_counters(out, parsed, span, pc, !by_call);
    out.put(cure(by_call, by_counters))
}

/// The line that says why the steps of the routine at a line are too many, with the line of the CALL and of the counters that make them so; `None`
/// if the cause is another one.
pub fn tell_many_steps(
    alloc: Global,
    parsed: &Parsed,
    line: usize,
    cause: &Cause,
) -> Result<Option<Vec<u8>>, AllocError> {
    let mut out = Text::new(alloc);
    match cause {
        Cause::StepsPass => {
            out.put("the steps pass 4,294,967,295");
            put_many(&mut out, parsed, line, true)
        }
        Cause::StepsMayPass => {
            out.put("the steps may pass 4,294,967,295 on a path without a loop");
            put_many(&mut out, parsed, line, false)
        }
        _ => return Ok(None),
    }
    Ok(Some(out.finish()?))
}
