//! An image that is explained.

ghost use Rattle.std.specs.Prelude.{length};
ghost use Rattle.geos_flow.specs.Marks.{Marking};
ghost use Rattle.geos_explain.specs.Led.{is_reached};
ghost use Rattle.geos_explain.specs.Told.{most_told, IsFirstUntold};

use crate::filled::Filled;
use crate::refusals::{first_untold, most_told};
use geos_flow::Marks;
use geos_verify::Rule;

/// An image, and what is to be said of it.
#[derive(Clone, Copy)]
pub(crate) struct Explained<'a> {
    pub image: &'a Filled<'a>,
    /// What control reaches.
    pub marks: &'a Marks,
    /// For each pc the rule that is reported there, if there is one.
    pub refused: &'a [Option<Rule>],
    /// The first pc whose refusal is not reported, since the limit is reached.
    pub untold: usize,
    ghost marked: { Marking marks.now (is_reached image.now) },
    ghost told: { IsFirstUntold refused.now (most_told (length image.now.points)) untold },
}

impl<'a> Explained<'a> {
    /// The image, with the reachable pcs marked, and the rules that are reported.
    pub fn of(image: &'a Filled<'a>, marks: &'a Marks, told: &'a [Option<Rule>]) -> Explained<'a>
        requires { Marking marks.now (is_reached image.now) }
    {
        Explained {
            image,
            marks,
            refused: told,
            untold: first_untold(told, most_told(image.len())),
        }
    }
}
