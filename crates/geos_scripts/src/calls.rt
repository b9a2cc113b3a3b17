//! What is wrong with the command of a line of a script.

ghost use Rattle.std.specs.Prelude.{◌≡◌, ◌<◌, ◌≤◌, ◌+◌, [], ◌∷◌, ℕ, List, slice_get, length, drop, not};
ghost use Rattle.std.specs.Prelude.{true, false, IfNone, IfSome, IfOk, IfErr, Some};
ghost use Rattle.std.specs.List.{count_by};
ghost use Rattle.script_commands.specs.Lines.{names_block, routine_named};
ghost use Rattle.geos_image.specs.Parts.{Parts};
ghost use Rattle.geos_image.specs.declared.routine.Routine.{Routine};
ghost use Rattle.geos_image.specs.Legal.{is_own};
ghost use Rattle.geos_text.specs.Words.{words};
ghost use Rattle.geos_scripts.specs.Faults.{IsSoOfWord, command_words, stands_alone};
ghost use Rattle.geos_scripts.specs.Walks.{IsFoundBehindCall, IsFoundOfCall, IsFoundOfCommand, IsSoOfCall, IsWalked};

use crate::fault::Fault;
use crate::names::Names;
use crate::numbers::{behind_at, block_fault, is_arrow, number_fault};
use geos_image::{Image, Routine};
use geos_lines::{Word, word_from};
use script_commands::routine_named;

/// How many numbers and blocks are before a word of a call.
#[derive(Clone, Copy)]
pub(crate) struct Passed {
    pub(crate) numbers: usize,
    pub(crate) blocks: usize,
}

/// The first word of a line's command from an index on: if names may be written, the command ends before `->`.
fn command_word<'a>(names: &Names, line: &'a [u8], from: usize) -> Option<Word<'a>>
    requires { from ≤ length line.now }
    ensures none { IfNone result (command_words names.now.uses (words (drop from line.now)) ≡ []) }
    ensures some { IfSome result (λ word. command_words names.now.uses (words (drop from line.now))
        ≡ word.bytes.now ∷ command_words names.now.uses (words (drop word.end line.now))) }
    ensures within { IfSome result (λ word. (from < word.end) × (word.end ≤ length line.now)) }
{
    let word = word_from(line, from)?;
    if names.are_allowed() && is_arrow(word.bytes) {
        None
    } else {
        Some(word)
    }
}

/// How many slots the routine borrows.
fn borrowed(routine: &Routine) -> usize
    ensures { result ≡ count_by (λ state. not (is_own state)) routine.now.entry.slots }
{
    routine
        .entry
        .slots
        .iter()
        .filter(|state| !state.is_own())
        .count()
}

/// What is wrong with a word of a call that must be a block; if nothing is, how many words are before the next one.
fn pass_block<'a>(names: &Names, passed: Passed, word: Word<'a>) -> Result<Passed, Fault<'a>>
    requires few { passed.numbers + passed.blocks < word.end }
    ensures next { IfOk result (λ next. next.numbers + next.blocks ≡ passed.numbers + passed.blocks + 1) }
    ensures walked { IfOk result (λ next. (routine : Routine) (all left : List (List ℕ))
        → IsWalked names.now.uses routine all (word.entry.bytes.now ∷ left) passed → IsWalked names.now.uses routine all left next) }
    ensures so { IfErr result (λ fault. (image : Parts) → IsSoOfWord image fault) }
{
    match block_fault(names, word) {
        Some(fault) => Err(fault),
        None => Ok(Passed {
            numbers: passed.numbers,
            blocks: passed.blocks + 1,
        }),
    }
}

/// The same of a word that comes only after numbers, and names no block.
fn pass_number<'a>(
    image: &Image,
    r: u16,
    names: &Names,
    passed: Passed,
    word: Word<'a>,
) -> Result<Passed, Fault<'a>>
    requires there { r < length image.now.routines }
    requires few { passed.numbers + passed.blocks < word.end }
    requires alone { passed.blocks ≡ 0 }
    requires number { names_block word.bytes.now ≡ false }
    ensures next { IfOk result (λ next. next.numbers + next.blocks ≡ passed.numbers + passed.blocks + 1) }
    ensures walked { IfOk result (λ next. (routine : Routine) (all left : List (List ℕ)) → slice_get image.now.routines r ≡ Some routine
        → IsWalked names.now.uses routine all (word.entry.bytes.now ∷ left) passed → IsWalked names.now.uses routine all left next) }
    ensures so { IfErr result (λ fault. (routine : Routine) (all left : List (List ℕ))
        → IsWalked names.now.uses routine all (word.entry.bytes.now ∷ left) passed → IsSoOfCall image.now all fault) }
{
    match number_fault(image, r, names, passed.numbers, word) {
        Some(fault) => Err(fault),
        None => Ok(Passed {
            numbers: passed.numbers + 1,
            blocks: passed.blocks,
        }),
    }
}

/// What is wrong with a word of a call after so many others; if nothing is, how many are before the next one.
fn pass<'a>(
    image: &Image,
    r: u16,
    names: &Names,
    passed: Passed,
    word: Word<'a>,
) -> Result<Passed, Fault<'a>>
    requires there { r < length image.now.routines }
    requires few { passed.numbers + passed.blocks < word.end }
    ensures next { IfOk result (λ next. next.numbers + next.blocks ≡ passed.numbers + passed.blocks + 1) }
    ensures walked { IfOk result (λ next. (routine : Routine) (all left : List (List ℕ)) → slice_get image.now.routines r ≡ Some routine
        → IsWalked names.now.uses routine all (word.entry.bytes.now ∷ left) passed → IsWalked names.now.uses routine all left next) }
    ensures so { IfErr result (λ fault. (routine : Routine) (all left : List (List ℕ))
        → IsWalked names.now.uses routine all (word.entry.bytes.now ∷ left) passed → IsSoOfCall image.now all fault) }
{
    if passed.blocks > 0 || behind_at(word.bytes).is_some() {
        pass_block(names, passed, word)
    } else {
        pass_number(image, r, names, passed, word)
    }
}

/// The fault in the words after the name of a public routine, from an
/// index on: the first word that does not fit, or the number of blocks.
fn words_fault<'a>(
    image: &Image,
    r: u16,
    names: &Names,
    line: &'a [u8],
    from: usize,
) -> Option<Fault<'a>>
    requires there { r < length image.now.routines }
    requires from { from ≤ length line.now }
    ensures { (name : List ℕ) (routine : Routine) → routine_named image.now name ≡ Some r → slice_get image.now.routines r ≡ Some routine
        → routine.public ≡ true
        → IsFoundOfCall names.now.uses image.now name (command_words names.now.uses (words (drop from line.now))) result }
{
    let mut at = from;
    let mut passed = Passed {
        numbers: 0,
        blocks: 0,
    };
    while let Some(word) = command_word(names, line, at) {
        match pass(image, r, names, passed, word) {
            Ok(next) => passed = next,
            Err(fault) => return Some(fault),
        }
        at = word.end;
    }
    let wanted = borrowed(image.routine(r));
    if passed.blocks == wanted {
        None
    } else {
        Some(Fault::Lent(passed.blocks, wanted))
    }
}

/// What is wrong with the words after `call`, which are from an index on.
fn call_fault<'a>(image: &Image, names: &Names, line: &'a [u8], from: usize) -> Option<Fault<'a>>
    requires { from ≤ length line.now }
    ensures { IsFoundBehindCall names.now.uses image.now (command_words names.now.uses (words (drop from line.now))) result }
{
    let Some(name) = command_word(names, line, from) else {
        return Some(Fault::NoName);
    };
    let Some(r) = routine_named(image, name.bytes) else {
        return Some(Fault::NoRoutine(name));
    };
    if image.routine(r).public {
        words_fault(image, r, names, line, name.end)
    } else {
        Some(Fault::NotPublic(name))
    }
}

/// Whether the word is a command of one word.
fn stands_alone(word: &[u8]) -> bool
    ensures { result ≡ stands_alone word.now }
{
    word == b"update".as_slice() || word == b"save".as_slice() || word == b"revert".as_slice()
}

/// What is wrong with the command of a line, without its comment and what keeps a word.
pub(crate) fn command_fault<'a>(image: &Image, names: &Names, line: &'a [u8]) -> Option<Fault<'a>>
    ensures { IsFoundOfCommand names.now.uses image.now (words line.now) result }
{
    let word = command_word(names, line, 0)?;
    if word.bytes == b"call".as_slice() {
        return call_fault(image, names, line, word.end);
    }
    if stands_alone(word.bytes) {
        let behind = command_word(names, line, word.end)?;
        return Some(Fault::Behind(behind));
    }
    Some(Fault::NoCommand(word))
}
