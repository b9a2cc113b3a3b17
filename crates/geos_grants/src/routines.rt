//! The effects of routines, with those of the routines that they call.

ghost use Rattle.std.specs.Prelude.{◌≡◌, ◌<◌, ◌≤◌, ◌&&◌, ◌||◌, ◌+◌, true, length};
ghost use Rattle.geos_verify.specs.Places.{RowAt};
ghost use Rattle.geos_verify.specs.Rules.{IsChecked};
ghost use Rattle.geos_verify.specs.Touched.{calls};
ghost use Rattle.geos_grants.specs.Effects.{does};
ghost use Rattle.geos_grants.specs.Routines.{noted, has_by, has_effect, IsFrom, IsSource, NotesAll};
ghost use Rattle.geos_grants.specs.Sets.{has};
ghost use Rattle.geos_image.specs.Fields.{FieldsFit};

use crate::effect::Effect;
use crate::effects::Effects;
use crate::here::effects_at;
use geos_image::{Image, Instr, Row};
use geos_verify::{Checked, calls, row_next};

/// The effects of each routine of an image, by its index; after the last routine they mean nothing.
pub type EffectTable = [Effects; 32];

/// What a table says of a routine; of one past the last, nothing.
fn noted(table: &EffectTable, r: u16) -> Effects
    ensures { (effect : Effect) → has result effect ≡ noted table.now effect r }
{
    match table.get(usize::from(r)) {
        Some(effects) => *effects,
        None => Effects::none(),
    }
}

/// What the instruction does, and the routine that it calls, as a table says.
fn effects_with_callee(i: &Instr, row: &Row, table: &EffectTable) -> Effects
    requires { FieldsFit i.now.opcode i.now }
    ensures { (effect : Effect) → has result effect ≡ (does effect i.now row.now || (calls i.now.opcode && noted table.now effect i.now.imm)) }
{
    let own = effects_at(i, row);
    if calls(i.opcode) {
        own.or(&noted(table, i.imm))
    } else {
        own
    }
}

/// What a routine does, by what a table says of the routines that it calls: one pass over its instructions.
fn effects_in(image: &Image, r: u16, table: &EffectTable) -> Effects
    requires { r < length image.now.routines }
    ensures { (effect : Effect) → has result effect ≡ has_by image.now table.now effect r }
{
    let start = image.start(r);
    let mut row = *image.row(start);
    let mut found = Effects::none();
    for pc in start..start + image.routine(r).count {
        found = found.or(&effects_with_callee(image.instr(pc), &row, table));
        row = row_next(image, pc, &row);
    }
    found
}

/// What each routine does, from the first to the last: a routine calls only earlier ones.
fn effects_of_all(image: &Image) -> EffectTable
    requires { IsChecked image.now }
    ensures { NotesAll image.now result }
{
    let mut table = [Effects::none(); 32];
    for r in 0..image.count() {
        table[usize::from(r)] = effects_in(image, r, &table);
    }
    table
}

/// The effects of each routine of an accepted image: those of its instructions, and of the routines that it calls, which all have
/// lower numbers. One pass over the image.
pub fn effects_of(checked: &Checked) -> EffectTable
    ensures { NotesAll checked.now result }
{
    effects_of_all(checked.image())
}

/// Where an effect comes from in a routine.
enum Source {
    /// From the instruction at this pc.
    Here(u16),
    /// From this routine, which it calls.
    Called(u16),
}

/// The source of a routine's effect: the first of its instructions that has the effect, or that calls a routine with
/// the effect.
fn source_in(image: &Image, r: u16, table: &EffectTable, effect: Effect) -> Source
    requires there { r < length image.now.routines }
    requires has { has_by image.now table.now effect r ≡ true }
    ensures { IsFrom image.now table.now effect r result }
{
    let start = image.start(r);
    let mut row = *image.row(start);
    for pc in start..start + image.routine(r).count {
        let i = image.instr(pc);
        if effects_with_callee(i, &row, table).has(effect) {
            return if effects_at(i, &row).has(effect) {
                Source::Here(pc)
            } else {
                Source::Called(i.imm)
            };
        }
        row = row_next(image, pc, &row);
    }
    unreachable!()
}

/// The pc of an instruction from which a routine has the effect, in itself or in a routine that it comes to.
pub(crate) fn find_source(image: &Image, r: u16, table: &EffectTable, effect: Effect) -> u16
    requires checked { IsChecked image.now }
    requires there { r < length image.now.routines }
    requires notes { NotesAll image.now table.now }
    requires has { has_effect image.now effect r ≡ true }
    ensures { IsSource image.now r effect result }
{
    let mut q = r;
    'down: loop {
        match source_in(image, q, table, effect) {
            Source::Here(pc) => return pc,
            Source::Called(callee) => q = callee,
        }
    }
}
