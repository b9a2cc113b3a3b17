//! The line that begins a routine.

ghost use Rattle.std.specs.Prelude.{◌≡◌};
ghost use Rattle.geos_text.specs.Words.{words};
ghost use Rattle.geos_source.specs.Headers.{named, budgeted, published, header};

use crate::fault::Why;
use crate::names::{Name, name_of};
use crate::operands::numbered;
use geos_image::{Routine, Row};
use geos_text::first_word;

/// A routine that has no instructions so far, with open rows.
fn named(name: Option<Name>, public: bool, number: &[u8]) -> Result<Routine, Why>
    ensures { result ≡ named name public number.now }
{
    let Some(name) = name else {
        return Err(Why::WrongOperands);
    };
    match numbered(u32::MAX, number) {
        Ok(budget) => Ok(Routine {
            name,
            public,
            count: 0,
            budget,
            entry: Row::open(),
            exit: Row::open(),
        }),
        Err(why) => Err(why),
    }
}

/// `budget N`, and nothing after it.
fn budgeted(name: Option<Name>, public: bool, rest: &[u8]) -> Result<Routine, Why>
    ensures { result ≡ budgeted name public (words rest.now) }
{
    let Some((word, rest)) = first_word(rest) else {
        return Err(Why::WrongOperands);
    };
    let Some((number, rest)) = first_word(rest) else {
        return Err(Why::WrongOperands);
    };
    if first_word(rest).is_some() || word != b"budget".as_slice() {
        return Err(Why::WrongOperands);
    }
    named(name, public, number)
}

/// `public` or not, then the budget.
fn published(name: Option<Name>, rest: &[u8]) -> Result<Routine, Why>
    ensures { result ≡ published name (words rest.now) }
{
    let Some((word, behind)) = first_word(rest) else {
        return Err(Why::WrongOperands);
    };
    if word == b"public".as_slice() {
        budgeted(name, true, behind)
    } else {
        budgeted(name, false, rest)
    }
}

/// The routine that the words after `routine` begin: a name, `public` or not, `budget` and a
/// number.
#[tactic(auto, unfolding(crate::specs::Headers::header))]
pub(crate) fn header(operands: &[u8]) -> Result<Routine, Why>
    ensures { result ≡ header (words operands.now) }
{
    match first_word(operands) {
        None => Err(Why::WrongOperands),
        Some((word, rest)) => published(name_of(word), rest),
    }
}
