//! Images that were checked.

ghost use Rattle.std.specs.Prelude.{◌≡◌, ◌<◌, ◌≤◌, ◌+◌, true, IfSome, IfNone, IfOk, IfErr};
ghost use Rattle.geos_image.specs.Legal.{is_image};
ghost use Rattle.geos_verify.specs.Rules.{RefusesNone, Refuses, Accepted, IsChecked, FirstRefusal};

use crate::body::Body;
use crate::place::go_on;
use crate::refusal::refusal;
use crate::rule::Reject;
use crate::touched::touched_in;
use geos_image::Image;
use std::marker::Model;

/// An image that the verifier accepted: no rule refuses at any pc.
#[derive(Drop)]
pub struct Checked {
    image: Image,
}

impl Model for Checked {
    ghost use Rattle.geos_image.specs.Parts.{Parts};
    ghost use Rattle.geos_verify.specs.Rules.{IsChecked};

    ghost Value = { Parts };

    ghost view = { λ c. c.image };

    ghost invariant = { λ c. IsChecked c.image };
}

impl Checked {
    /// The image that was checked.
    pub fn image(&self) -> &Image
        ensures image { result.now ≡ self.now }
        ensures checked { IsChecked self.now }
    {
        &self.image
    }
}

/// The first refusal in a routine.
fn refusal_in(body: &Body) -> Option<Reject>
    ensures none { IfNone result
        (RefusesNone body.now.image.now body.now.r body.now.routine.now body.now.start (body.now.start + body.now.routine.now.count)) }
    ensures within { IfSome result (λ reject. (body.now.start ≤ reject.pc) × (reject.pc < body.now.start + body.now.routine.now.count)) }
    ensures some { IfSome result (Refuses body.now.image.now body.now.r body.now.routine.now body.now.start) }
    ensures first { IfSome result (λ reject. RefusesNone body.now.image.now body.now.r body.now.routine.now body.now.start reject.pc) }
{
    let mut row = *body.image.row(body.start);
    // Whether the row is known to name no empty slot, as most rows that come of such a row.
    let mut names_none = false;
    for pc in body.start..body.start + body.routine.count {
        if let Some(rule) = refusal(body, pc, &row, names_none) {
            return Some(Reject { pc, rule });
        }
        names_none = go_on(body.image, pc, &mut row);
    }
    None
}

/// The first pc that is refused and the lowest rule there, if any is.
fn first_refusal(image: &Image) -> Option<Reject>
    ensures legal { is_image image.now ≡ true }
    ensures none { IfNone result (Accepted image.now) }
    ensures some { IfSome result (FirstRefusal image.now) }
{
    let mut touched = [[false; 4]; 32];
    for r in 0..image.count() {
        touched[usize::from(r)] = touched_in(image, r, &touched);
        let body = Body {
            image,
            r,
            routine: image.routine(r),
            start: image.start(r),
            touched: &touched,
        };
        if let Some(reject) = refusal_in(&body) {
            return Some(reject);
        }
    }
    None
}

/// Checks an image by the rules of docs/VERIFIER.md, and hands it back where one refuses. It
/// takes no memory.
pub fn check(image: Image) -> Result<Checked, (Image, Reject)>
    ensures checked { IfOk result (λ checked. checked ≡ image) }
    ensures image { IfErr result (λ refused. refused.0 ≡ image) }
    ensures reject { IfErr result (λ refused. FirstRefusal image refused.1) }
{
    match first_refusal(&image) {
        None => Ok(Checked { image }),
        Some(reject) => Err((image, reject)),
    }
}
