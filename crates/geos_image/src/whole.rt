//! Code with an entry state at each place, of which an image of either version is made.

ghost use Rattle.std.specs.Prelude.{◌≡◌, ◌↔◌, IsTrue, IsSome, IfSome, true, false, length};
ghost use Rattle.geos_image.specs.Keys.{keyed_of};
ghost use Rattle.geos_image.specs.Legal.{is_formed, is_image};

use crate::image::{Image, is_formed};
use crate::keys::{keep_rows, keys_of};
use crate::point::Point;
use crate::routine::Routine;
use std::marker::Model;

/// Routines and their instructions, each instruction with its entry state and potential. Slots may be borrowed, which in
/// an image of version 1 they may not.
#[derive(Drop)]
pub struct Whole {
    pub(crate) routines: Vec<Routine>,
    pub(crate) points: Vec<Point>,
}

impl Model for Whole {
    ghost use Rattle.std.specs.Prelude.{◌≡◌, true, false};
    ghost use Rattle.geos_image.specs.Parts.{Parts};
    ghost use Rattle.geos_image.specs.Legal.{is_formed};

    ghost Value = { Parts };

    ghost view = { λ w. record { keyed = false; routines = w.routines.items; points = w.points.items } };

    ghost invariant = { λ w. is_formed true (record { keyed = false; routines = w.routines.items; points = w.points.items }) ≡ true };
}

impl Whole {
    /// The code of routines and points that are known to be legal: nothing is tested.
    pub fn of_formed(routines: Vec<Routine>, points: Vec<Point>) -> Whole
        requires { is_formed true (record { keyed = false; routines = routines.items; points = points.items }) ≡ true }
        ensures { result ≡ record { keyed = false; routines = routines.items; points = points.items } }
    {
        Whole { routines, points }
    }

    /// How many instructions there are, 1 to 4,096.
    pub fn len(&self) -> u16
        ensures len { result ≡ length self.now.points }
        ensures formed { is_formed true self.now ≡ true }
    {
        self.points.len() as u16
    }

    /// The image of version 2: of the rows it keeps those at key places. It takes no memory.
    pub fn into_keyed(self) -> Image
        ensures value { result ≡ keyed_of self }
        ensures formed { is_formed true self ≡ true }
    {
        let flags = keys_of(&self.routines, &self.points);
        let mut points = self.points;
        keep_rows(&flags, &mut points);
        Image {
            keyed: true,
            routines: self.routines,
            points,
            repeats: None,
        }
    }

    /// The image of version 1, with all rows; `None` exactly if a slot is borrowed. It takes no memory.
    pub fn into_image(self) -> Option<Image>
        ensures some { IsSome result ↔ IsTrue (is_image self) }
        ensures value { IfSome result (λ image. image ≡ self) }
    {
        if is_formed(false, false, &self.routines, &self.points) {
            Some(Image {
                keyed: false,
                routines: self.routines,
                points: self.points,
                repeats: None,
            })
        } else {
            None
        }
    }
}
