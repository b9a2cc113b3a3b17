//! An image with what is known at each of its places.

ghost use Rattle.std.specs.Prelude.{◌≡◌, ◌<◌, ◌≤◌, ◌+◌, true, length, slice_get, Some, None, IfSome, IfOk, MatchOption};
ghost use Rattle.geos_image.specs.Fields.{FieldsFit, CalleeFits};
ghost use Rattle.geos_image.specs.Legal.{is_image};
ghost use Rattle.geos_image.specs.Parts.{start_of};
ghost use Rattle.geos_verify.specs.Places.{places, at_place, RowAt};
ghost use Rattle.geos_verify.specs.Rows.{after, has_edge};

use geos_flow::Graph;
use geos_image::{Image, Instr, Point, Potential, Routine, Row};
use geos_verify::{Place as KnownPlace, after, places_of};
use std::alloc::{AllocError, Global};
use std::marker::Model;

/// An image, with what is known at each of its places: an image of version 2 gives rows only at its key places. It is seen as
/// the image.
#[derive(Drop)]
pub(crate) struct Filled<'a> {
    graph: Graph<'a>,
    known: Vec<KnownPlace>,
}

impl<'a> Model for Filled<'a> {
    ghost use Rattle.std.specs.Prelude.{◌≡◌};
    ghost use Rattle.geos_image.specs.Parts.{Parts};
    ghost use Rattle.geos_verify.specs.Places.{places};

    ghost Value = { Parts };

    ghost view = { λ f. f.graph.image.now };

    ghost invariant = { λ f. f.known.items ≡ places f.graph.image.now };
}

impl<'a> Filled<'a> {
    /// The image with its places.
    pub fn of(alloc: Global, image: &'a Image) -> Result<Filled<'a>, AllocError>
        ensures { IfOk result (λ filled. filled ≡ image.now) }
    {
        let known = places_of(alloc, image)?;
        let graph = Graph::of(image);
        Ok(Filled { graph, known })
    }

    /// The image as it is.
    pub fn image(&self) -> &Image
        ensures { result.now ≡ self.now }
    {
        self.graph.image
    }

    /// The edges of the image.
    pub fn graph(&self) -> &Graph<'a>
        ensures { result.now.image.now ≡ self.now }
    {
        &self.graph
    }

    /// How many routines there are, 1 to 32.
    pub fn count(&self) -> u16
        ensures count { result ≡ length self.now.routines }
        ensures legal { is_image self.now ≡ true }
    {
        self.graph.image.count()
    }

    /// A routine, by its index.
    pub fn routine(&self, index: u16) -> &Routine
        requires { index < length self.now.routines }
        ensures { slice_get self.now.routines index ≡ Some result.now }
    {
        self.graph.image.routine(index)
    }

    /// The pc of a routine's first instruction.
    pub fn start(&self, index: u16) -> u16
        requires { index < length self.now.routines }
        ensures start { result ≡ start_of self.now.routines index }
        ensures room { IfSome (slice_get self.now.routines index) (λ routine. result + routine.count ≤ length self.now.points) }
        ensures short { length self.now.points ≤ 4096 }
    {
        self.graph.image.start(index)
    }

    /// How many instructions there are, 1 to 4,096.
    pub fn len(&self) -> u16
        ensures len { result ≡ length self.now.points }
        ensures legal { is_image self.now ≡ true }
    {
        self.graph.image.len()
    }

    /// The instruction at a pc.
    pub fn instr(&self, pc: u16) -> &Instr
        requires { pc < length self.now.points }
        ensures there { IfSome (slice_get self.now.points pc) (λ point. result.now ≡ point.instr) }
        ensures fields { FieldsFit result.now.opcode result.now }
        ensures callee { CalleeFits (length self.now.routines) result.now }
    {
        self.graph.image.instr(pc)
    }

    /// What is known at a pc.
    pub fn row(&self, pc: u16) -> &Row
        requires { pc < length self.now.points }
        ensures { RowAt self.now pc result.now }
    {
        match self.place(pc) {
            Some(place) => &place.row,
            None => unreachable!(),
        }
    }

    /// The instructions of a routine, by its index; none if there is no such routine.
    pub fn points_of(&self, r: u16) -> &[Point] {
        if r >= self.count() {
            return &[];
        }
        let start = usize::from(self.start(r));
        let end = start + usize::from(self.routine(r).count);
        match self.graph.image.points().get(start..end) {
            Some(points) => points,
            None => &[],
        }
    }

    /// The potential at a pc.
    pub fn potential(&self, pc: u16) -> &Potential
        requires { pc < length self.now.points }
        ensures { IfSome (slice_get self.now.points pc) (λ point. result.now ≡ point.potential) }
    {
        self.graph.image.potential(pc)
    }

    /// The instruction at a pc, with its potential, if there is one.
    pub fn point(&self, pc: u16) -> Option<&Point>
        ensures { MatchOption result (slice_get self.now.points pc ≡ None) (λ point. slice_get self.now.points pc ≡ Some point.now) }
    {
        self.graph.image.points().get(usize::from(pc))
    }

    /// The place at a pc, if there is one.
    pub fn place(&self, pc: u16) -> Option<&KnownPlace>
        ensures { MatchOption result (slice_get (places self.now) pc ≡ None) (λ place. slice_get (places self.now) pc ≡ Some place.now) }
    {
        self.known.get(usize::from(pc))
    }

    /// What is known at the end of an edge of the instruction at a pc, where `row` is known before it.
    pub fn behind(&self, pc: u16, row: &Row, branch: bool) -> Row
        requires there { pc < length (places self.now) }
        requires edge { at_place self.now pc (λ place. has_edge place.instr branch) ≡ true }
        ensures { result ≡ after self.now pc row.now branch }
    {
        after(self.graph.image, pc, row, branch)
    }
}
