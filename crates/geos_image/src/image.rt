//! Images.

ghost use Rattle.std.specs.Prelude.{◌≡◌, ◌<◌, ◌≤◌, ◌+◌, ◌↔◌, IsTrue, IsSome, IfSome, true};
ghost use Rattle.std.specs.Prelude.{false, [], replicate, ◌&&◌, nat_le, length, slice_get, Some};
ghost use Rattle.std.specs.List.{list_all};
ghost use Rattle.geos_image.specs.Parts.{Parts, start_of};
ghost use Rattle.geos_image.specs.Legal.{is_image, is_formed, are_routines, is_point, rows_stand, row_flags, keyed_parts, is_keyed};
ghost use Rattle.geos_image.specs.Repeats.{IsRepeated};
ghost use Rattle.geos_image.specs.Keys.{gives, is_key, branches, falls_through};
ghost use Rattle.geos_image.specs.Spelling.{version};
ghost use Rattle.geos_image.specs.Fields.{FieldsFit, TargetFits, CalleeFits};

use crate::instr::Instr;
use crate::keys::{Flags, flag_count, keys_of, place_rows};
use crate::legal::{MOST_INSTRS, MOST_ROUTINES, is_point, is_routine, total_count};
use crate::point::Point;
use crate::potential::Potential;
use crate::routine::Routine;
use crate::row::Row;
use std::marker::Model;

/// Routines and their instructions, each instruction with its entry state and potential. An
/// image is always one that the format allows (docs/FORMATS.md).
///
/// In version 1 it gives an entry state at each place, in version 2 only at its key places.
#[derive(Drop)]
pub struct Image {
    pub(crate) keyed: bool,
    pub(crate) routines: Vec<Routine>,
    pub(crate) points: Vec<Point>,
    /// A flag for each place of an image that was read: where one after another is flagged, its entry state is that of the other.
    pub(crate) repeats: Option<Vec<bool>>,
}

impl Model for Image {
    ghost use Rattle.std.specs.Prelude.{◌≡◌, true};
    ghost use Rattle.geos_image.specs.Parts.{Parts};
    ghost use Rattle.geos_image.specs.Legal.{is_image};
    ghost use Rattle.geos_image.specs.Repeats.{AreNoted};

    ghost Value = { Parts };

    ghost view = { λ i. record { keyed = i.keyed; routines = i.routines.items; points = i.points.items } };

    ghost invariant = { λ i. (is_image (record { keyed = i.keyed; routines = i.routines.items; points = i.points.items }) ≡ true)
        × AreNoted i.repeats i.points.items };
}

/// Whether each routine may follow the earlier ones.
fn are_routines(borrows: bool, routines: &[Routine]) -> bool
    ensures { result ≡ are_routines borrows [] routines.now }
{
    for (k, routine) in routines.iter().enumerate() {
        if !is_routine(borrows, &routines[..k], routine) {
            return false;
        }
    }
    true
}

fn are_points(borrows: bool, routines: u32, points: &[Point]) -> bool
    requires { length points.now ≤ MOST_INSTRS }
    ensures { result ≡ list_all (is_point borrows routines (length points.now)) points.now }
{
    let instrs = points.len() as u32;
    points
        .iter()
        .all(|point| is_point(borrows, routines, instrs, point))
}

/// Whether exactly the flagged points have rows.
fn rows_stand(flags: &Flags, points: &[Point]) -> bool
    requires { length points.now ≤ MOST_INSTRS }
    ensures { result ≡ rows_stand flags.now points.now }
{
    for (pc, point) in points.iter().enumerate() {
        if point.row.is_some() != flags[pc] {
            return false;
        }
    }
    true
}

/// Every flag is set.
fn all_flags() -> Flags
    ensures { result ≡ replicate 4096 true }
{
    [true; 4096]
}

/// A flag for each pc at which an image gives a row.
fn row_flags(keyed: bool, routines: &[Routine], points: &[Point]) -> Flags
    requires few { length routines.now ≤ MOST_ROUTINES }
    requires short { length points.now ≤ MOST_INSTRS }
    ensures { result ≡ row_flags keyed routines.now points.now }
{
    if keyed {
        keys_of(routines, points)
    } else {
        all_flags()
    }
}

/// Whether these make an image. `borrows` says whether slots may be borrowed.
pub(crate) fn is_formed(borrows: bool, keyed: bool, routines: &[Routine], points: &[Point]) -> bool
    ensures { result ≡ is_formed borrows (record { keyed = keyed; routines = routines.now; points = points.now }) }
{
    !routines.is_empty()
        && routines.len() <= usize::from(MOST_ROUTINES)
        && are_routines(borrows, routines)
        && points.len() <= usize::from(MOST_INSTRS)
        && total_count(routines) as usize == points.len()
        && are_points(borrows, routines.len() as u32, points)
        && rows_stand(&row_flags(keyed, routines, points), points)
}

/// Whether there are no more routines and points than an image has.
fn is_short(routines: &[Routine], points: &[Point]) -> bool
    ensures { result ≡ (nat_le (length routines.now) MOST_ROUTINES && nat_le (length points.now) MOST_INSTRS) }
{
    routines.len() <= usize::from(MOST_ROUTINES) && points.len() <= usize::from(MOST_INSTRS)
}

impl Image {
    /// The image of version 1 of these routines and points; `None` exactly if the format allows none. It
    /// takes no memory.
    pub fn new(routines: Vec<Routine>, points: Vec<Point>) -> Option<Image>
        ensures some { IsSome result ↔ IsTrue (is_image (record { keyed = false; routines = routines.items; points = points.items })) }
        ensures value { IfSome result (λ image. image ≡ record { keyed = false; routines = routines.items; points = points.items }) }
    {
        if is_formed(false, false, &routines, &points) {
            Some(Image {
                keyed: false,
                routines,
                points,
                repeats: None,
            })
        } else {
            None
        }
    }

    /// The image of routines and points that are known to be legal: nothing is tested. `keyed` says whether it is of version 2.
    pub fn of_legal(keyed: bool, routines: Vec<Routine>, points: Vec<Point>) -> Image
        requires { is_image (record { keyed = keyed; routines = routines.items; points = points.items }) ≡ true }
        ensures { result ≡ record { keyed = keyed; routines = routines.items; points = points.items } }
    {
        Image {
            keyed,
            routines,
            points,
            repeats: None,
        }
    }

    /// The image of version 2 of these routines and points, with these rows at its key places, in their order; `None`
    /// exactly if the format allows none. Rows that points have are not looked at. It takes no memory.
    pub fn with_keys(routines: Vec<Routine>, points: Vec<Point>, rows: Vec<Row>) -> Option<Image>
        ensures some { IsSome result ↔ IsTrue (is_keyed routines.items points.items rows.items) }
        ensures value { IfSome result (λ image. image ≡ keyed_parts routines.items points.items rows.items) }
    {
        if !is_short(&routines, &points) {
            return None;
        }
        let flags = keys_of(&routines, &points);
        if flag_count(&flags, &points) != rows.len() {
            return None;
        }
        let mut points = points;
        place_rows(&flags, &mut points, &rows);
        if is_formed(true, true, &routines, &points) {
            Some(Image {
                keyed: true,
                routines,
                points,
                repeats: None,
            })
        } else {
            None
        }
    }

    /// The version of the format, 1 or 2.
    pub fn version(&self) -> u16
        ensures { result ≡ version self.now.keyed }
    {
        if self.keyed { 2 } else { 1 }
    }

    /// How many routines there are, 1 to 32.
    pub fn count(&self) -> u16
        ensures count { result ≡ length self.now.routines }
        ensures legal { is_image self.now ≡ true }
    {
        self.routines.len() as u16
    }

    /// A routine, by its index.
    pub fn routine(&self, index: u16) -> &Routine
        requires { index < length self.now.routines }
        ensures { slice_get self.now.routines index ≡ Some result.now }
    {
        &self.routines[index as usize]
    }

    /// The pc of a routine's first instruction.
    pub fn start(&self, index: u16) -> u16
        requires { index < length self.now.routines }
        ensures start { result ≡ start_of self.now.routines index }
        // The routine's instructions are some of the image's.
        ensures room { IfSome (slice_get self.now.routines index) (λ routine. result + routine.count ≤ length self.now.points) }
        ensures short { length self.now.points ≤ MOST_INSTRS }
        // A row is given there.
        ensures given { gives self.now result ≡ true }
    {
        total_count(&self.routines[..usize::from(index)]) as u16
    }

    /// How many instructions there are, 1 to 4,096.
    pub fn len(&self) -> u16
        ensures len { result ≡ length self.now.points }
        ensures legal { is_image self.now ≡ true }
    {
        self.points.len() as u16
    }

    /// Every instruction with its entry state and potential, by pc.
    pub fn points(&self) -> &[Point]
        ensures points { result.now ≡ self.now.points }
        ensures legal { is_image self.now ≡ true }
    {
        self.points.as_slice()
    }

    /// The instruction at a pc.
    pub fn instr(&self, pc: u16) -> &Instr
        requires { pc < length self.now.points }
        ensures there { IfSome (slice_get self.now.points pc) (λ point. result.now ≡ point.instr) }
        ensures fields { FieldsFit result.now.opcode result.now }
        ensures target { TargetFits (length self.now.points) result.now }
        ensures callee { CalleeFits (length self.now.routines) result.now }
        // Rows are given where it leads by its label, and after it where control does not continue.
        ensures led { branches result.now.opcode ≡ true → gives self.now result.now.target ≡ true }
        ensures cut { falls_through result.now.opcode ≡ false → pc + 1 < length self.now.points → gives self.now (pc + 1) ≡ true }
    {
        &self.points[pc as usize].instr
    }

    /// Whether the pc is a key place: the first one of a routine, one to which an instruction may lead by its label,
    /// or one after an instruction from which control does not continue. In version 1 that takes a look at every
    /// instruction.
    pub fn key(&self, pc: u16) -> bool
        requires { pc < length self.now.points }
        ensures key { result ≡ is_key self.now pc }
        ensures given { result ≡ true → gives self.now pc ≡ true }
    {
        if self.keyed {
            self.gives(pc)
        } else {
            keys_of(&self.routines, &self.points)[pc as usize]
        }
    }

    /// Whether the image gives an entry state at the pc: in version 1 at each, in version 2 only at the key places.
    pub fn gives(&self, pc: u16) -> bool
        requires { pc < length self.now.points }
        ensures { result ≡ gives self.now pc }
    {
        self.points[pc as usize].row.is_some()
    }

    /// The entry state at a pc, where the image gives one.
    pub fn given(&self, pc: u16) -> &Option<Row>
        requires { pc < length self.now.points }
        ensures { IfSome (slice_get self.now.points pc) (λ point. result.now ≡ point.row) }
    {
        &self.points[pc as usize].row
    }

    /// Whether it is known that the place after `pc` is given the entry state that `pc` is given. The reader notes it where the bytes are
    /// the same, which is not promised; of images that were made of points nothing is known.
    pub fn repeats(&self, pc: u16) -> bool
        requires { pc + 1 < length self.now.points }
        ensures { result ≡ true → IsRepeated self.now.points pc }
    {
        match &self.repeats {
            Some(flags) => flags[pc as usize + 1],
            None => false,
        }
    }

    /// The entry state at a pc.
    pub fn row(&self, pc: u16) -> &Row
        requires there { pc < length self.now.points }
        requires given { gives self.now pc ≡ true }
        ensures { IfSome (slice_get self.now.points pc) (λ point. Some result.now ≡ point.row) }
    {
        match &self.points[pc as usize].row {
            Some(row) => row,
            None => unreachable!(),
        }
    }

    /// The potential at a pc.
    pub fn potential(&self, pc: u16) -> &Potential
        requires { pc < length self.now.points }
        ensures { IfSome (slice_get self.now.points pc) (λ point. result.now ≡ point.potential) }
    {
        &self.points[pc as usize].potential
    }
}
