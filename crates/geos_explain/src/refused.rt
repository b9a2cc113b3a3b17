//! Refusals as values, for what is not printed line by line.

ghost use Rattle.std.specs.Prelude.{◌≡◌, ◌<◌, true, length};
ghost use Rattle.geos_image.specs.Legal.{is_image};

use crate::explained::Explained;
use crate::filled::Filled;
use crate::forgotten::Item;
use crate::led::reached;
use crate::place::Place;
use crate::refusals::rule_at;
use crate::repeated::told_once;
use crate::routines::{ExplainedRoutine, place_at};
use crate::saying::Saying;
use crate::stale::stale_used;
use crate::uses::{changed_slot, past_at, past_item};
use crate::words::{put_words, rule_number};
use geos_image::{Image, Row};
use geos_verify::{Rule, is_of_file, leads_nowhere, over_budget, pointer_at, slot_state};
use std::alloc::{AllocError, Global};

/// A register that a refusal is about.
#[derive(Clone, Copy)]
pub enum Register {
    /// A word, w0 to w7.
    Word(u8),
    /// A slot, s0 to s3.
    Slot(u8),
    /// A pointer, p0 to p3.
    Pointer(u8),
}

/// A refusal of an instruction.
#[derive(Drop)]
pub struct Refusal {
    /// The number K of the rule VK.
    pub rule: u64,
    /// The index of the routine.
    pub routine: u16,
    /// The pc of the instruction.
    pub pc: u16,
    /// The register that it is about, if it is about one.
    pub register: Option<Register>,
    /// What is wrong, and what helps. It begins with a blank.
    pub sentence: Vec<u8>,
}

/// The refusals of an image.
#[derive(Drop)]
pub struct RefusalList {
    /// The first ones, by pc in ascending order; that of a routine's budget is at its first instruction.
    pub list: Vec<Refusal>,
    /// How many more there are.
    pub more: u32,
}

/// The first pointer of a row that leads into an empty slot.
fn nowhere(row: &Row) -> Option<Register> {
    for p in 0..4 {
        if leads_nowhere(&row.slots, pointer_at(row, p)) {
            return Some(Register::Pointer(p));
        }
    }
    None
}

/// The first slot with a block of the VM file.
fn of_file(row: &Row) -> Option<Register> {
    for a in 0..4 {
        if is_of_file(slot_state(row, a)) {
            return Some(Register::Slot(a));
        }
    }
    None
}

/// The first pointer that the instruction uses and that may be stale.
fn stale(place: &Place) -> Option<Register> {
    match stale_used(place) {
        [Some(p), _] | [None, Some(p)] => Some(Register::Pointer(p)),
        [None, None] => None,
    }
}

/// The index that may be too high, or the pointer that leads to too few bytes.
fn past(place: &Place) -> Option<Register> {
    match past_item(place.i, place.row, past_at(place.i, place.row)) {
        Item::Bound(w, _) => Some(Register::Word(w)),
        Item::Leads(p, _) => Some(Register::Pointer(p)),
        _ => None,
    }
}

/// The register that the refusal by the rule is about.
fn register_at(place: &Place, rule: Rule) -> Option<Register> {
    match rule {
        Rule::NamesEmptySlot => nowhere(place.row),
        Rule::StalePointer => stale(place),
        Rule::PassesEnd => past(place),
        Rule::ChangesUnmarked => Some(Register::Slot(changed_slot(place.i, place.row))),
        Rule::LocksIntoHeld | Rule::WrongSlot => Some(Register::Slot(place.i.a)),
        Rule::CommitsHeld => of_file(place.row),
        _ => None,
    }
}

/// Refusals that are being collected.
#[derive(Drop)]
struct Collected<'a> {
    alloc: Global,
    lines: &'a [u32],
    most: usize,
    refusals: RefusalList,
    /// Whether an allocation was refused.
    refused: bool,
}

impl Collected<'_> {
    /// Takes the next refusal, which is only counted if the limit is reached.
    fn take(&mut self, place: &Place, rule: Rule) {
        if self.refusals.list.len() >= self.most {
            self.refusals.more = self.refusals.more.saturating_add(1);
            return;
        }
        let mut out = Saying::new(self.alloc, self.lines);
        put_words(&mut out, place, rule);
        let Ok(sentence) = out.finish() else {
            self.refused = true;
            return;
        };
        let done = self.refusals.list.push(Refusal {
            rule: rule_number(rule),
            routine: place.r,
            pc: place.pc,
            register: register_at(place, rule),
            sentence,
        });
        self.refused = self.refused || done.is_err();
    }

    /// Takes the refusal of the instruction at a pc, if a rule refuses it, and that of the routine's budget at its first one.
    fn take_place(&mut self, within: &ExplainedRoutine, start: u16, pc: u16)
        requires { pc < length within.now.explained.now.image.now.points }
    {
        let place = place_at(within, pc);
        if let Some(rule) = rule_at(within.explained.refused, pc) {
            self.take(&place, rule);
        }
        if pc == start && over_budget(pc, within.routine, pc, place.potential) {
            self.take(&place, Rule::OverBudget);
        }
    }

    /// Takes the refusals of a routine.
    fn take_routine(&mut self, explained: &Explained, r: u16)
        requires within { r < length explained.now.image.now.routines }
        requires legal { is_image explained.now.image.now ≡ true }
    {
        let routine = explained.image.routine(r);
        let start = explained.image.start(r);
        let within = ExplainedRoutine {
            explained,
            r,
            routine,
        };
        for k in 0..routine.count {
            self.take_place(&within, start, start + k);
        }
    }

    /// Takes the refusals of all routines.
    fn take_all(&mut self, explained: &Explained) {
        for r in 0..explained.image.count() {
            self.take_routine(explained, r);
        }
    }
}

/// The refusals of an image, of which at most so many have a sentence. `lines` has the number of each instruction's line in its text, as
/// `geos_source::parse` gives them; if it is empty, sentences name pcs. `refused` is as for `explain`, and so is the time.
pub fn find_refusals(
    alloc: Global,
    lines: &[u32],
    image: &Image,
    refused: &[Option<Rule>],
    most: usize,
) -> Result<RefusalList, AllocError> {
    let filled = Filled::of(alloc, image)?;
    let told = told_once(alloc, &filled, refused)?;
    let marks = reached(&filled);
    let mut collected = Collected {
        alloc,
        lines,
        most,
        refusals: RefusalList {
            list: Vec::new(alloc),
            more: 0,
        },
        refused: false,
    };
    collected.take_all(&Explained::of(&filled, &marks, &told));
    if collected.refused {
        Err(AllocError)
    } else {
        Ok(collected.refusals)
    }
}
