//! Calls of routines that are not before the caller: the verifier refuses them, whatever the budgets are.

ghost use Rattle.std.specs.Prelude.{◌≡◌, ◌<◌, length, IfNone, IfSome};
ghost use Rattle.geos_asm.specs.Calls.{calls_on, line_at, CallsOnAt, CallBefore, CallBeforeIn};

use geos_image::{Image, Instr};
use geos_verify::calls;

/// Whether the instruction calls a routine that is not before routine r.
fn calls_on(r: u16, i: &Instr) -> bool
    ensures { result ≡ calls_on r i.now }
{
    calls(i.opcode) && i.imm >= r
}

/// The first instruction of routine r that calls one that is not before it.
fn calling_on(image: &Image, r: u16) -> Option<u16>
    requires { r < length image.now.routines }
    ensures some { IfSome result (CallsOnAt image.now) }
    ensures none { IfNone result (CallBeforeIn image.now r) }
{
    let start = image.start(r);
    for pc in start..start + image.routine(r).count {
        if calls_on(r, image.instr(pc)) {
            return Some(pc);
        }
    }
    None
}

/// The same of all routines.
pub(crate) fn first_calling_on(image: &Image) -> Option<u16>
    ensures some { IfSome result (CallsOnAt image.now) }
    ensures none { IfNone result (CallBefore image.now) }
{
    for r in 0..image.count() {
        if let Some(pc) = calling_on(image, r) {
            return Some(pc);
        }
    }
    None
}

/// The line that has the instruction at a pc, by a table of them.
pub(crate) fn line_of(lines: &[u32], pc: u16) -> u32
    ensures { result ≡ line_at lines.now pc }
{
    match lines.get(usize::from(pc)) {
        Some(line) => *line,
        None => 0,
    }
}
