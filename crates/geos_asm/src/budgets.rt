//! Texts whose routines have the least budgets.

ghost use Rattle.std.specs.Prelude.{◌≡◌, ◌⊎◌, ◌<◌, ◌≤◌, ◌++◌, ◌∷◌, ◌==◌, true, List, ℕ, length, position, IfOk, IfErr, IfSome, OnOk};
ghost use Rattle.geos_text.specs.Words.{words};
ghost use Rattle.geos_asm.specs.Assembling.{IsAssembled};
ghost use Rattle.geos_asm.specs.Budgets.{begins_word, ends_word, whole_lines, is_budget, is_header};
ghost use Rattle.geos_asm.specs.Budgets.{IsCutRound, IsLineAlike, HasOtherBudgets, IsBudgeted, IsWhyNoBudgets};

use crate::assembler::{Assembled, assemble_with_lines};
use crate::calls::{first_calling_on, line_of};
use crate::error::BudgetError;
use crate::least::budgets_in_order;
use crate::unset::{LoopOn, first_unset_loop};
use geos_image::Image;
use geos_text::{first_word, is_blank, number_up_to, put_numbered, without_comment};
use std::alloc::{AllocError, Global};

/// The most routines of a text: a chain of calls has no more.
const MOST_ROUTINES: u8 = 32;

/// The end of the first line, if it ends with a line feed.
fn first_feed(text: &[u8]) -> Option<usize>
    ensures { result ≡ position (λ byte. byte == 10) text.now }
{
    text.iter().position(|byte| *byte == b'\n')
}

/// The first line with its end, and the text after it.
fn first_whole_line(text: &[u8]) -> (&[u8], &[u8])
    requires { 0 < length text.now }
    ensures line { whole_lines text.now ≡ result.0.now ∷ whole_lines result.1.now }
    ensures less { length result.1.now < length text.now }
{
    match first_feed(text) {
        Some(feed) => text.split_at(feed + 1),
        None => text.split_at(text.len()),
    }
}

/// Whether a word is a number that a budget may be, or a `?`.
fn is_budget(word: &[u8]) -> bool
    ensures { result ≡ is_budget word.now }
{
    word == b"?".as_slice() || number_up_to(u32::MAX, word).is_ok()
}

/// Whether words are those of a routine's line up to its budget.
fn is_header(front: &[u8]) -> bool
    ensures { result ≡ true → is_header (words front.now) ≡ true }
{
    let Some((first, rest)) = first_word(front) else {
        return false;
    };
    let Some((_name, rest)) = first_word(rest) else {
        return false;
    };
    let Some((third, rest)) = first_word(rest) else {
        return false;
    };
    if first != b"routine".as_slice() {
        return false;
    }
    match first_word(rest) {
        None => third == b"budget".as_slice(),
        Some((last, rest)) => {
            third == b"public".as_slice()
                && last == b"budget".as_slice()
                && first_word(rest).is_none()
        }
    }
}

/// Whether a word may begin after these bytes.
fn begins_word(front: &[u8]) -> bool
    ensures { result ≡ begins_word front.now }
{
    match front.last() {
        Some(byte) => is_blank(*byte),
        None => false,
    }
}

/// Whether a word ends before these bytes.
fn ends_word(behind: &[u8]) -> bool
    ensures { result ≡ ends_word behind.now }
{
    match behind.first() {
        Some(byte) => is_blank(*byte) || *byte == b';' || *byte == b'\r' || *byte == b'\n',
        None => true,
    }
}

/// The start and the end of the last word of a line before its comment.
fn last_word(line: &[u8]) -> (usize, usize)
    ensures { (result.0 ≤ result.1) × (result.1 ≤ length line.now) }
{
    let said = without_comment(line);
    let inner = |byte: &u8| !is_blank(*byte) && *byte != b'\r' && *byte != b'\n';
    let end = match said.iter().rposition(inner) {
        Some(last) => last + 1,
        None => 0,
    };
    let start = match said[..end].iter().rposition(|byte| is_blank(*byte)) {
        Some(blank) => blank + 1,
        None => 0,
    };
    (start, end)
}

/// The parts of a line that begins a routine: up to its budget, the budget, and the rest.
fn cut(line: &[u8]) -> Option<(&[u8], &[u8], &[u8])>
    ensures { IfSome result (λ parts. IsCutRound line.now (record { front = parts.0.now; budget = parts.1.now; behind = parts.2.now })) }
{
    let (start, end) = last_word(line);
    let (front, budget, behind) = (&line[..start], &line[start..end], &line[end..]);
    if begins_word(front) && ends_word(behind) && is_header(front) && is_budget(budget) {
        Some((front, budget, behind))
    } else {
        None
    }
}

/// Appends a line; with another budget where it begins a routine, and tells whether it does.
fn put_line(new: &mut Vec<u8>, line: &[u8], budget: u32) -> Result<bool, AllocError>
    ensures { OnOk result ((here : List ℕ) × IsLineAlike line.now here × (new.new.items ≡ new.old.items ++ here)) }
{
    match cut(line) {
        Some((front, _old, behind)) => {
            new.extend_from_slice(front)?;
            put_numbered(new, "", u64::from(budget))?;
            new.extend_from_slice(behind)?;
            Ok(true)
        }
        None => {
            new.extend_from_slice(line)?;
            Ok(false)
        }
    }
}

/// The text with these budgets for its routines, in their order, and 0 for each other one.
fn with_budgets(alloc: Global, text: &[u8], budgets: &[u32]) -> Result<Vec<u8>, AllocError>
    ensures { IfOk result (λ new. HasOtherBudgets text.now new.items) }
{
    let mut new = Vec::new(alloc);
    let mut rest = text;
    let mut left = budgets;
    while !rest.is_empty() {
        let (line, behind) = first_whole_line(rest);
        rest = behind;
        let (budget, others) = match left.split_first() {
            Some((budget, others)) => (*budget, others),
            None => (0, left),
        };
        if put_line(&mut new, line, budget)? {
            left = others;
        }
    }
    Ok(new)
}

/// The constant of the potential at each routine's first instruction.
fn constants(alloc: Global, image: &Image) -> Result<Vec<u32>, AllocError> {
    let mut constants = Vec::new(alloc);
    for r in 0..image.count() {
        let pc = usize::from(image.start(r));
        let constant = image
            .points()
            .get(pc)
            .map_or(0, |point| point.potential.constant);
        constants.push(constant)?;
    }
    Ok(constants)
}

/// A text with other budgets, and its image.
#[derive(Drop)]
pub struct Budgeted {
    /// The text.
    pub text: Vec<u8>,
    /// Its image, with the line of each instruction.
    pub made: Assembled,
}

/// A text with other budgets, and those that are found for its image.
#[derive(Drop)]
struct Draft {
    budgeted: Budgeted,
    found: Vec<u32>,
}

/// The text with these budgets, and those that are found for it.
fn drafted(alloc: Global, text: &[u8], budgets: &[u32]) -> Result<Draft, BudgetError>
    ensures budgeted { IfOk result (λ draft. IsBudgeted text.now draft.budgeted.text.items) }
    ensures image { IfOk result (λ draft. IsAssembled draft.budgeted.text.items draft.budgeted.made.image) }
    ensures fault { IfErr result (IsWhyNoBudgets text.now) }
{
    let new = with_budgets(alloc, text, budgets)?;
    let made = assemble_with_lines(alloc, &new)?;
    if let Some(pc) = first_calling_on(&made.image) {
        return Err(BudgetError::CallsOn(line_of(&made.lines, pc)));
    }
    if let Some(LoopOn { counter, pc }) = first_unset_loop(&made.image) {
        return Err(BudgetError::NotSet(counter, line_of(&made.lines, pc)));
    }
    let found = constants(alloc, &made.image)?;
    let budgeted = Budgeted { text: new, made };
    Ok(Draft { budgeted, found })
}

/// The budgets to begin with: mostly the ones that are found for the text with them. What is answered does not rest on that.
fn first_budgets(alloc: Global, text: &[u8]) -> Vec<u32> {
    let Ok(plain) = with_budgets(alloc, text, &[]) else {
        return Vec::new(alloc);
    };
    match budgets_in_order(alloc, &plain) {
        Ok(budgets) => budgets,
        Err(_) => Vec::new(alloc),
    }
}

/// The text with the least budget that is found for each routine in the place of its own, and its image. What is found for a routine depends
/// on the budgets of the routines that it calls, so they are found in the order of the routines. If those that are found for the whole
/// text differ, rounds follow, each of which finds one more on a chain of calls. The faults are those of `with_least_budgets`.
pub fn find_budgets(alloc: Global, text: &[u8]) -> Result<Budgeted, BudgetError>
    ensures budgeted { IfOk result (λ new. IsBudgeted text.now new.text.items) }
    ensures image { IfOk result (λ new. IsAssembled new.text.items new.made.image) }
    ensures fault { IfErr result (IsWhyNoBudgets text.now) }
{
    let first = first_budgets(alloc, text);
    let mut draft = drafted(alloc, text, &first)?;
    if draft.found == first {
        return Ok(draft.budgeted);
    }
    for _ in 0..MOST_ROUTINES {
        let next = drafted(alloc, text, &draft.found)?;
        if next.found == draft.found {
            return Ok(next.budgeted);
        }
        draft = next;
    }
    Ok(draft.budgeted)
}

/// The text with the least budget that is found for each routine in the place of its own: the constant of the potential at its first
/// instruction. A `?` may stand for a budget. All other bytes stay.
///
/// The faults are those of `assemble`, for the text with other budgets; or `CallsOn`, with the line of the first CALL of a routine that is not
/// before the caller; or `NotSet`, with the line of a LOOP that takes from a counter that nothing sets on some path to it.
pub fn with_least_budgets(alloc: Global, text: &[u8]) -> Result<Vec<u8>, BudgetError>
    ensures budgeted { IfOk result (λ new. IsBudgeted text.now new.items) }
    ensures fault { IfErr result (IsWhyNoBudgets text.now) }
{
    Ok(find_budgets(alloc, text)?.text)
}

/// Whether a line begins a routine whose budget is a `?`.
fn leaves_budget(line: &[u8]) -> bool {
    match cut(line) {
        Some((_front, budget, _behind)) => budget == b"?".as_slice(),
        None => false,
    }
}

/// Whether a text is a draft: a routine's budget is a `?`.
fn is_draft(text: &[u8]) -> bool {
    let mut rest = text;
    while !rest.is_empty() {
        let (line, behind) = first_whole_line(rest);
        if leaves_budget(line) {
            return true;
        }
        rest = behind;
    }
    false
}

/// The budgets that are found for the first routines, and for the others the greatest one.
fn found_budgets(alloc: Global, text: &[u8]) -> Result<Vec<u32>, AllocError> {
    let mut budgets = first_budgets(alloc, text);
    for _ in budgets.len()..usize::from(MOST_ROUTINES) {
        budgets.push(u32::MAX)?;
    }
    Ok(budgets)
}

/// A draft, in which a `?` stands for the budget of a routine, with the least budgets. If the text has no least ones, the routines up to the
/// first one without a least budget have theirs, and the others the greatest budget, so that the fault of that one is the first. Any other
/// text stays as it is.
pub fn completed(alloc: Global, text: Vec<u8>) -> Result<Vec<u8>, AllocError>
    ensures { IfOk result (λ new. (new.items ≡ text.items) ⊎ HasOtherBudgets text.items new.items) }
{
    if !is_draft(&text) {
        return Ok(text);
    }
    match find_budgets(alloc, &text) {
        Ok(new) => Ok(new.text),
        Err(_) => with_budgets(alloc, &text, &found_budgets(alloc, &text)?),
    }
}
