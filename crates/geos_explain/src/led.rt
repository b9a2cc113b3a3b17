//! Which instructions control reaches.

ghost use Rattle.std.specs.Prelude.{◌≡◌, ◌<◌, length};
ghost use Rattle.geos_flow.specs.Marks.{Marking};
ghost use Rattle.geos_explain.specs.Led.{MarksStarts, are_in_one, is_reached, leads, lies_in, stays};

use crate::filled::Filled;
use geos_flow::{Counting, Edge, Heading, Marks, follow, is_marked, mark, no_marks};

/// Whether the pc is that of an instruction of routine r.
fn lies_in(image: &Filled, r: u16, pc: usize) -> bool
    requires { r < length image.now.routines }
    ensures { result ≡ lies_in image.now r pc }
{
    let start = usize::from(image.start(r));
    start <= pc && pc < start + usize::from(image.routine(r).count)
}

/// Whether two pcs are those of instructions of one routine.
#[tactic(auto, unfolding(crate::specs::Led::are_in_one))]
fn are_in_one(image: &Filled, pc: usize, other: usize) -> bool
    ensures { result ≡ are_in_one image.now pc other (length image.now.routines) }
{
    let mut both = false;
    for r in 0..image.count() {
        both = both || (lies_in(image, r, pc) && lies_in(image, r, other));
    }
    both
}

/// The edges that stay in a routine.
#[derive(Clone, Copy)]
struct Staying<'a> {
    image: &'a Filled<'a>,
}

impl<'a> Counting for Staying<'a> {
    ghost counted = { λ s edge end. stays s.image.now edge end };

    fn counts(&self, edge: Edge, end: u16) -> bool {
        are_in_one(self.image, usize::from(edge.from), usize::from(end))
    }
}

/// Those pcs are marked to which edges that count lead from one, or from which they lead there.
pub(crate) fn led_from<C: Counting>(
    image: &Filled,
    heading: Heading,
    counting: &C,
    start: u16,
) -> Marks
    requires { start < 4096 }
    ensures { Marking result (leads image.now heading (C.counted counting.now) start) }
{
    let mut marks = no_marks();
    mark(&mut marks, usize::from(start));
    follow(image.graph(), heading, counting, &mut marks);
    marks
}

/// The first instruction of each routine is marked.
fn starts_marked(image: &Filled) -> Marks
    ensures { MarksStarts image.now (length image.now.routines) result }
{
    let mut marks = no_marks();
    for r in 0..image.count() {
        mark(&mut marks, usize::from(image.start(r)));
    }
    marks
}

/// The pcs that control reaches.
pub(crate) fn reached(image: &Filled) -> Marks
    ensures { Marking result (is_reached image.now) }
{
    let mut marks = starts_marked(image);
    follow(
        image.graph(),
        Heading::Ahead,
        &Staying { image },
        &mut marks,
    );
    marks
}

/// Whether control reaches the pc from the first instruction of its routine.
pub(crate) fn is_reached(image: &Filled, marks: &Marks, pc: u16) -> bool
    requires { Marking marks.now (is_reached image.now) }
    ensures { result ≡ is_reached image.now pc }
{
    is_marked(marks, usize::from(pc))
}
