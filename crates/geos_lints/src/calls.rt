//! Numbers of a call that its routine does not read, or that are missing.

ghost use Rattle.std.specs.Prelude.{◌<◌, length, IfSome};

use crate::advice::Advice;
use crate::liveness::Liveness;
use crate::words::ALL;
use geos_image::{Image, Routine};
use std::alloc::{AllocError, Global};

/// The public routine of an image with the name.
fn routine_named(image: &Image, name: &[u8]) -> Option<u16>
    ensures { IfSome result (λ r. r < length image.now.routines) }
{
    for r in 0..image.count() {
        let routine = image.routine(r);
        if routine.public && routine.name_text() == name {
            return Some(r);
        }
    }
    None
}

/// How many words there are up to the last one that the `in` line of a routine bounds.
fn count_bounded(routine: &Routine) -> usize {
    let bounds: &[u16] = &routine.entry.bounds;
    match bounds.iter().rposition(|bound| *bound < u16::MAX) {
        Some(last) => last.saturating_add(1),
        None => 0,
    }
}

/// A fact with what helps.
fn advice(alloc: Global, fact: String, cure: &str) -> Result<Advice, AllocError> {
    Ok(Advice {
        fact: fact.into_bytes(),
        cure: Vec::from_slice(alloc, cure.as_bytes())?,
    })
}

/// What is known of the routines of an image that are called.
#[derive(Drop)]
pub(crate) struct Callable<'i> {
    image: &'i Image,
    live: Liveness,
}

impl<'i> Callable<'i> {
    /// The routines of an image. `AllocError` if the allocator refuses memory.
    pub(crate) fn of(alloc: Global, image: &'i Image) -> Result<Callable<'i>, AllocError> {
        Ok(Callable {
            image,
            live: Liveness::of(alloc, image, ALL)?,
        })
    }

    /// How many words there are up to the last one that may be read from where a routine begins.
    fn count_read(&self, r: u16) -> usize
        requires { r < length self.now.image.now.routines }
    {
        let words = self.live.before(usize::from(self.image.start(r)));
        let unread = words.leading_zeros() as usize;
        usize::saturating_sub(8, unread)
    }

    /// The same as `advice_on_call`.
    pub(crate) fn advice_on(
        &self,
        alloc: Global,
        name: &str,
        numbers: usize,
    ) -> Result<Option<Advice>, AllocError> {
        let Some(r) = routine_named(self.image, name.as_bytes()) else {
            return Ok(None);
        };
        if numbers > 8 {
            return Ok(None);
        }
        let bounded = count_bounded(self.image.routine(r));
        if numbers < bounded {
            let last = bounded.saturating_sub(1);
            let fact = format!(in alloc;
                "numbers in the call: {numbers}; the in line of {name} bounds words up to w{last}, and missing numbers are 0"
            )?;
            return Ok(Some(advice(alloc, fact, "write them all")?));
        }
        let read = self.count_read(r).max(bounded);
        if numbers <= read {
            return Ok(None);
        }
        let fact = format!(in alloc;
            "numbers in the call: {numbers}; words that {name} reads: {read}"
        )?;
        Ok(Some(advice(alloc, fact, "omit the last numbers")?))
    }
}

/// What a warning says of a call with so many numbers of the routine with the name: if its `in` line bounds more words, or if it reads fewer.
/// `None` if there is nothing to warn of, or if no call has so many numbers. `AllocError` if the allocator refuses memory.
pub fn advice_on_call(
    alloc: Global,
    image: &Image,
    name: &str,
    numbers: usize,
) -> Result<Option<Advice>, AllocError> {
    Callable::of(alloc, image)?.advice_on(alloc, name, numbers)
}
