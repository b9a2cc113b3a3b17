//! How many steps are left at most, and what units of counters pay for, routine by routine.

ghost use Rattle.std.specs.Prelude.{◌≡◌, ◌<◌, ◌≤◌, ◌+◌, ℕ, None, false, is_none, is_some, length, IfOk, IfErr, IfSome};
ghost use Rattle.geos_image.specs.Parts.{start_of};
ghost use Rattle.geos_code.specs.Code.{ForwardIn};
ghost use Rattle.geos_potentials.specs.Constants.{HasLoops, PayLeastIn, AreLeastFrom};
ghost use Rattle.geos_counters.specs.Steps.{NoStepsHoldIn};
ghost use Rattle.geos_potentials.specs.Count.{CountsOn, AreCounted, StaysFrom};
ghost use Rattle.geos_potentials.specs.Numbers.{numbers_of};
ghost use Rattle.geos_potentials.specs.Reasons.{IsReason};
ghost use Rattle.geos_potentials.specs.Onward.{AreFoundFrom};
ghost use Rattle.geos_counters.specs.Touching.{NotesTouched};

use crate::asked::{Potentials, potential_at};
use crate::reason::{Halted, Reason, Unfound};
use crate::search::Search;
use crate::unpaid::round_by;
use crate::ways::WaysIn;
use geos_code::{Body, Known, body_of, is_loop, leads_back};
use geos_counters::find_touched;
use geos_image::{Image, Table, two_tables};
use geos_verify::Touched;
use std::alloc::{AllocError, Global};

/// Steps of a routine are counted from its last instruction to its first; `None` if a number is
/// past what a potential can say.
fn sweep(body: &Body, known: &Known, potentials: &mut Potentials) -> Option<()>
    ensures counts { CountsOn body.now.image.now body.now.r (numbers_of potentials.old) (numbers_of potentials.new) (is_some result) }
    ensures stays { StaysFrom (start_of body.now.image.now.routines (body.now.r + 1)) (numbers_of potentials.old) (numbers_of potentials.new) }
{
    // Recalls the lemma.
    potentials.lengths();
    for pc in (body.start..body.end).rev() {
        let next = potential_at(body, known, potentials, pc)?;
        potentials.set(pc, next);
    }
    Some(())
}

/// Whether some instruction of a routine is a LOOP, or leads back.
fn has_loops(body: &Body) -> bool
    ensures forward { ForwardIn body.now.image.now body.now.r → result ≡ false }
    ensures none { result ≡ false → HasLoops body.now.image.now body.now.r → ⊥ }
{
    for pc in body.start..body.end {
        if is_loop(body.image.instr(pc).opcode) || leads_back(body, pc) {
            return true;
        }
    }
    false
}

/// What counting in routines with loops takes.
#[derive(Drop)]
struct Tables {
    touched: Touched,
    into: Table<WaysIn>,
    listed: Table<u16>,
    search: Search,
}

impl Tables {
    fn new(alloc: Global, image: &Image) -> Result<Tables, AllocError>
        ensures { IfOk result (λ tables. NotesTouched image.now tables.touched) }
    {
        let (into, listed) = two_tables(alloc, WaysIn::with_left(0), 0)?;
        let search = Search::new(alloc)?;
        Ok(Tables {
            touched: find_touched(image),
            into,
            listed,
            search,
        })
    }

    /// Only the search, in its present state.
    fn into_search(self) -> Search
        ensures { result ≡ self.search }
    {
        let Tables {
            into,
            listed,
            search,
            ..
        } = self;
        drop(into);
        drop(listed);
        search
    }
}

/// Counts the steps of a routine with loops, and gives the tables back, or says why no number of them is found to be enough.
fn count_loops(
    body: &Body,
    known: &Known,
    tables: Tables,
    potentials: &mut Potentials,
) -> Result<Tables, Reason>
    requires { NotesTouched body.now.image.now tables.touched }
    ensures least { IfOk result (λ _. PayLeastIn body.now.image.now body.now.r known.now (numbers_of potentials.new)) }
    ensures reason { IfErr result (IsReason body.now.image.now body.now.r known.now) }
    ensures touched { IfOk result (λ back. back.touched ≡ tables.touched) }
    ensures stays { StaysFrom (start_of body.now.image.now.routines (body.now.r + 1)) (numbers_of potentials.old) (numbers_of potentials.new) }
{
    let mut tables = tables;
    if let Some(back) = round_by(body, &mut tables.into, &mut tables.listed) {
        drop(tables);
        return Err(Reason::NoLoop(back));
    }
    match tables.search.find(body, known, &tables.touched, potentials) {
        Ok(()) => Ok(tables),
        Err(halt) => Err(Reason::InTheWay(Halted {
            search: tables.into_search(),
            halt,
        })),
    }
}

/// The tables, which are made if there are none yet.
fn tables_of(alloc: Global, image: &Image, made: Option<Tables>) -> Result<Tables, AllocError>
    requires { IfSome made (λ tables. NotesTouched image.now tables.touched) }
    ensures { IfOk result (λ tables. NotesTouched image.now tables.touched) }
{
    match made {
        Some(tables) => Ok(tables),
        None => Tables::new(alloc, image),
    }
}

/// Counts the steps of a routine, or says why no number of them is found to be enough. The tables are made for the first routine with
/// loops: an image without them needs none. A search that has come to what is in its way is answered, and takes them along.
fn count_in(
    alloc: Global,
    body: &Body,
    known: &Known,
    made: &mut Option<Tables>,
    potentials: &mut Potentials,
) -> Result<Option<Reason>, AllocError>
    requires { IfSome made.old (λ tables. NotesTouched body.now.image.now tables.touched) }
    ensures counts { IfOk result (λ reason. CountsOn body.now.image.now body.now.r (numbers_of potentials.old) (numbers_of potentials.new)
        (is_none reason)) }
    ensures least { IfOk result (λ reason. reason ≡ None → HasLoops body.now.image.now body.now.r
        → PayLeastIn body.now.image.now body.now.r known.now (numbers_of potentials.new)) }
    ensures reason { IfOk result (λ reason. IfSome reason (IsReason body.now.image.now body.now.r known.now)) }
    ensures touched { IfOk result (λ _. IfSome made.new (λ tables. NotesTouched body.now.image.now tables.touched)) }
    ensures stays { IfOk result (λ _. StaysFrom (start_of body.now.image.now.routines (body.now.r + 1))
        (numbers_of potentials.old) (numbers_of potentials.new)) }
{
    if !has_loops(body) {
        return match sweep(body, known, potentials) {
            Some(()) => Ok(None),
            None => Ok(Some(Reason::TooMany)),
        };
    }
    let Ok(tables) = tables_of(alloc, body.image, made.take()) else {
        return Err(AllocError);
    };
    match count_loops(body, known, tables, potentials) {
        Ok(tables) => {
            // By a call, so that the check does not go over each table here.
            drop(made.replace(tables));
            Ok(None)
        }
        Err(reason) => Ok(Some(reason)),
    }
}

/// Counts the steps of one more routine, with tables once there are any; it is left, with the reason, where no number is found.
fn count_next(
    alloc: Global,
    image: &Image,
    r: u16,
    known: &Known,
    tables: &mut Option<Tables>,
    potentials: &mut Potentials,
    left: &mut Option<Unfound>,
) -> Result<(), AllocError>
    requires there { r < length image.now.routines }
    requires touched { IfSome tables.old (λ it. NotesTouched image.now it.touched) }
    ensures { IfOk result (λ _. (count : ℕ) → r < count
        → AreFoundFrom image.now (r + 1) count known.now potentials.old left.old tables.old
        → AreFoundFrom image.now r count known.now potentials.new left.new tables.new) }
{
    let found = count_in(alloc, &body_of(image, r), known, tables, potentials)?;
    if let Some(reason) = found {
        // By a call, so that the check does not go over each table here.
        drop(left.replace(Unfound { routine: r, reason }));
    }
    Ok(())
}

/// Counts the steps of so many routines, from the last to the first; the first one for which no number is found is left, if there is one.
fn count_each(
    alloc: Global,
    image: &Image,
    routines: u16,
    known: &Known,
    tables: &mut Option<Tables>,
    potentials: &mut Potentials,
    left: &mut Option<Unfound>,
) -> Result<(), AllocError>
    requires few { routines ≤ length image.now.routines }
    requires no_tables { tables.old ≡ None }
    requires none { left.old ≡ None }
    ensures { IfOk result (λ _. AreFoundFrom image.now 0 routines known.now potentials.new left.new tables.new) }
{
    for r in (0..routines).rev() {
        count_next(alloc, image, r, known, tables, potentials, left)?;
    }
    Ok(())
}

/// Finds potentials for the first `count` routines: at each instruction an upper bound of the remaining steps, with a coefficient for each
/// counter, from the known rows. If a routine has none, returns that routine and the reason: if it has no loops, no numbers of steps hold
/// in it. Otherwise the potentials of each routine with loops pay for its edges and returns, each constant is the least that does with these
/// rows and coefficients, and each coefficient is required by a LOOP. If no routine has loops, and some numbers of steps hold in all, those
/// found hold and are the least.
pub fn find_potentials(
    alloc: Global,
    image: &Image,
    routines: u16,
    known: &Known,
    potentials: &mut Potentials,
) -> Result<Option<Unfound>, AllocError>
    requires { routines ≤ length image.now.routines }
    ensures counted { IfOk result (λ _. AreCounted image.now 0 routines (numbers_of potentials.new)) }
    ensures least { IfOk result (λ left. left ≡ None → AreLeastFrom image.now 0 routines known.now (numbers_of potentials.new)) }
    ensures within { IfOk result (λ left. IfSome left (λ unfound. unfound.routine < routines)) }
    ensures none { IfOk result (λ left. IfSome left (λ unfound. NoStepsHoldIn image.now unfound.routine)) }
    ensures reason { IfOk result (λ left. IfSome left (λ unfound. IsReason image.now unfound.routine known.now unfound.reason)) }
{
    let mut tables = None;
    let mut left = None;
    let counted = count_each(
        alloc,
        image,
        routines,
        known,
        &mut tables,
        potentials,
        &mut left,
    );
    if let Some(tables) = tables {
        drop(tables);
    }
    match counted {
        Ok(()) => Ok(left),
        Err(error) => {
            drop(left);
            Err(error)
        }
    }
}
