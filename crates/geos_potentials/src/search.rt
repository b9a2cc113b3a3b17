//! The search for potentials of a routine with loops.

ghost use Rattle.std.specs.Prelude.{◌+◌, List, Bool, Option, IfSome, IfOk, IfErr};
ghost use Rattle.geos_image.specs.Parts.{start_of};
ghost use Rattle.geos_image.specs.declared.row.Row.{Row};
ghost use Rattle.geos_potentials.specs.Arcs.{AreArcs};
ghost use Rattle.geos_counters.specs.Touching.{NotesTouched};
ghost use Rattle.geos_potentials.specs.Constants.{ArePaidIn, AreLeastIn, AreLeastWith, AreForLoops, coefficients_at};
ghost use Rattle.geos_potentials.specs.Count.{StaysFrom};
ghost use Rattle.geos_potentials.specs.Demands.{AreWanted};
ghost use Rattle.geos_potentials.specs.Halts.{IsInTheWay};
ghost use Rattle.geos_counters.specs.Idle.{IsNeverPaid};
ghost use Rattle.geos_potentials.specs.Least.{steps_at};
ghost use Rattle.geos_potentials.specs.Numbers.{numbers_of};
ghost use Rattle.geos_potentials.specs.Stuck.{NotesIdle};

use crate::asked::Potentials;
use crate::classes::Classes;
use crate::constants::{find_constants, free_loops, put_potentials};
use crate::counting::note_edges;
use crate::nests::Splitting;
use crate::paid::are_paid;
use crate::stuck::goes_round_idle;
use crate::units::{Lack, Units};
use control_graph::{Graph, Piece};
use geos_code::{Body, Known};
use geos_verify::Touched;
use std::alloc::{AllocError, Global};

/// What is in the way of the search.
#[derive(Clone, Copy)]
pub enum Halt {
    /// A component has a cycle on which no LOOP may pay.
    Stuck(Piece),
    /// Nests are not paid for.
    Unpaid(Lack),
    /// With the coefficients that are found a constant is past what a potential can say.
    Passes,
}

/// What the search takes.
#[derive(Drop)]
pub struct Search {
    pub graph: Graph,
    pub(crate) classes: Classes,
    pub splitting: Splitting,
    pub units: Units,
}

impl Search {
    /// Nothing is noted yet.
    pub fn new(alloc: Global) -> Result<Search, AllocError> {
        let graph = Graph::new(alloc)?;
        let classes = Classes::new(alloc)?;
        let units = Units::new(alloc)?;
        let splitting = Splitting::new(alloc)?;
        Ok(Search {
            graph,
            classes,
            splitting,
            units,
        })
    }

    /// Finds coefficients with which the nests that were found are paid for, and the least constants with them.
    fn pay(&mut self, body: &Body) -> Result<(), Lack>
        ensures least { IfOk result (λ _. (known : List (Option Row)) (table : List (List Bool))
            → AreArcs body.now.image.now body.now.r known table self.old.graph.arcs
            → AreLeastWith body.now.image.now body.now.r known self.new.units.pay (steps_at self.new.units.lengths.ways)) }
        ensures wanted { IfOk result (λ _. AreWanted self.old.graph.arcs self.new.units.pay) }
    {
        self.units
            .pay_all(body.start, &self.graph, &mut self.splitting)?;
        find_constants(body, &self.graph, &self.splitting, &mut self.units)?;
        free_loops(body, &self.graph, &self.splitting, &mut self.units)?;
        Ok(())
    }

    /// Why nests stop at a component: it has a cycle on which no LOOP may pay. That it always has one is not proved.
    fn halt_at(&self, body: &Body, piece: Piece) -> Halt
        ensures { NotesIdle body.now.image.now body.now.r self.now.classes → IsInTheWay body.now.image.now body.now.r result }
    {
        if goes_round_idle(body, &self.classes, &self.splitting.order, &piece) {
            Halt::Stuck(piece)
        } else {
            Halt::Unpaid(Lack::Looks)
        }
    }

    /// Finds potentials of a routine, or the reason why there are none. They pay for its edges and returns, which is tested. The constants are
    /// the least with these coefficients, and each coefficient is required by a LOOP.
    pub fn find(
        &mut self,
        body: &Body,
        known: &Known,
        touched: &Touched,
        potentials: &mut Potentials,
    ) -> Result<(), Halt>
        ensures least { IfOk result (λ _. AreLeastIn body.now.image.now body.now.r known.now (numbers_of potentials.new)) }
        ensures paid { IfOk result (λ _. ArePaidIn body.now.image.now body.now.r known.now (numbers_of potentials.new)) }
        ensures wanted { IfOk result (λ _. AreForLoops body.now.image.now body.now.r (coefficients_at (numbers_of potentials.new).coefficients)) }
        ensures way { NotesTouched body.now.image.now touched.now → IfErr result (IsInTheWay body.now.image.now body.now.r) }
        ensures stays { StaysFrom (start_of body.now.image.now.routines (body.now.r + 1)) (numbers_of potentials.old) (numbers_of potentials.new) }
    {
        note_edges(&mut self.graph, body, known, touched);
        self.classes.note(body, &self.graph);
        if let Err(piece) = self.splitting.find(body, &self.graph, &mut self.classes) {
            return Err(self.halt_at(body, piece));
        }
        match self.pay(body) {
            Ok(()) => {}
            Err(lack) => return Err(Halt::Unpaid(lack)),
        }
        if !put_potentials(body, &self.units, potentials) {
            return Err(Halt::Passes);
        }
        if are_paid(body, known, potentials) {
            Ok(())
        } else {
            Err(Halt::Unpaid(Lack::Looks))
        }
    }

    /// Finds a component with a cycle on which no LOOP may pay, if it is known what each routine touches.
    pub fn find_idle(&mut self, body: &Body, known: &Known, touched: &Touched) -> Option<Piece>
        ensures { NotesTouched body.now.image.now touched.now → IfSome result (λ _. IsNeverPaid body.now.image.now body.now.r) }
    {
        note_edges(&mut self.graph, body, known, touched);
        self.classes.note(body, &self.graph);
        let piece = self.splitting.find_idle(body, &self.graph, &self.classes)?;
        if goes_round_idle(body, &self.classes, &self.splitting.order, &piece) {
            Some(piece)
        } else {
            None
        }
    }
}
