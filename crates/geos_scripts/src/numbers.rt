//! What is wrong with numbers, names and blocks in a call of a script.

ghost use Rattle.std.specs.Prelude.{◌≡◌, ◌<◌, ◌≤◌, ◌∷◌, false, length, slice_get, Some, IfSome, IfNone};
ghost use Rattle.geos_image.specs.Parts.{Parts};
ghost use Rattle.script_commands.specs.Names.{is_arrow};
ghost use Rattle.script_commands.specs.Lines.{names_block};
ghost use Rattle.geos_image.specs.declared.routine.Routine.{Routine};
ghost use Rattle.geos_scripts.specs.declared.names.NameUse.TheVariants.{Allowed};
ghost use Rattle.geos_scripts.specs.declared.fault.Fault.TheVariants.{Ninth};
ghost use Rattle.geos_scripts.specs.Faults.{IsNamed, IsSoOfWord, IsWithin, begins_as_name};
ghost use Rattle.geos_scripts.specs.Walks.{IsFoundOfBlock, IsFoundOfNumber};

use crate::fault::Fault;
use crate::names::Names;
use geos_image::Image;
use geos_lines::Word;
use geos_text::{NumberError, number_up_to};

pub(crate) fn is_arrow(word: &[u8]) -> bool
    ensures { result ≡ is_arrow word.now }
{
    word == b"->".as_slice()
}

/// Whether a word is for a name.
fn begins_as_name(word: &[u8]) -> bool
    ensures { result ≡ begins_as_name word.now }
{
    match word.first() {
        Some(byte) => *byte == b'$',
        None => false,
    }
}

/// The part of a word after `@`, if it names a block.
pub(crate) fn behind_at(word: &[u8]) -> Option<&[u8]>
    ensures none { IfNone result (names_block word.now ≡ false) }
    ensures some { IfSome result (λ said. word.now ≡ 64 ∷ said.now) }
{
    match word.split_first() {
        Some((b'@', said)) => Some(said),
        _ => None,
    }
}

/// The fault of a word that is a name or stores one, if the word is used instead of a number.
fn name_fault<'a>(names: &Names, word: Word<'a>, said: &[u8]) -> Option<Fault<'a>>
    requires { IsNamed word.bytes.now }
    ensures none { IfNone result (names.now.uses ≡ Allowed) }
    ensures some { IfSome result (λ fault. (image : Parts) → IsSoOfWord image fault) }
{
    if !names.are_allowed() {
        Some(Fault::NotAllowed(word))
    } else if names.have(said) {
        None
    } else {
        Some(Fault::NotKept(word))
    }
}

/// What is wrong with digits for the word w of this index.
fn digits_fault<'a>(image: &Image, r: u16, index: usize, word: Word<'a>) -> Option<Fault<'a>>
    requires there { r < length image.now.routines }
    requires eight { index < 8 }
    ensures none { IfNone result ((routine : Routine) → slice_get image.now.routines r ≡ Some routine
        → IsWithin routine index word.entry.bytes.now) }
    ensures some { IfSome result (IsSoOfWord image.now) }
{
    let bound = image.routine(r).entry.bounds[index];
    match number_up_to(65_535, word.bytes) {
        Err(NumberError::Malformed) => Some(Fault::NoNumber(word)),
        Err(NumberError::TooLarge) => Some(Fault::TooHigh(word)),
        Ok(number) => {
            if number > u32::from(bound) {
                Some(Fault::PastBound(word, bound, index))
            } else {
                None
            }
        }
    }
}

/// What is wrong with a number of this index, whatever it is: it may be the ninth.
fn ninth_fault(index: usize, word: Word) -> Option<Fault>
    ensures none { IfNone result (index < 8) }
    ensures some { IfSome result (λ fault. (fault ≡ Ninth word.entry) × (8 ≤ index)) }
{
    if index >= 8 {
        Some(Fault::Ninth(word))
    } else {
        None
    }
}

/// What is wrong with a number for the word w of this index.
pub(crate) fn number_fault<'a>(
    image: &Image,
    r: u16,
    names: &Names,
    index: usize,
    word: Word<'a>,
) -> Option<Fault<'a>>
    requires { r < length image.now.routines }
    ensures { IsFoundOfNumber names.now.uses image.now r index word.entry result }
{
    let named = is_arrow(word.bytes) || begins_as_name(word.bytes);
    if named {
        return match name_fault(names, word, word.bytes) {
            Some(fault) => Some(fault),
            None => ninth_fault(index, word),
        };
    }
    match ninth_fault(index, word) {
        Some(fault) => Some(fault),
        None => digits_fault(image, r, index, word),
    }
}

/// The fault of the handle of a block, the part of a word after `@`.
fn handle_fault<'a>(names: &Names, word: Word<'a>, said: &[u8]) -> Option<Fault<'a>>
    requires { word.bytes.now ≡ 64 ∷ said.now }
    ensures { IsFoundOfBlock names.now.uses word.entry result }
{
    if begins_as_name(said) {
        return name_fault(names, word, said);
    }
    match number_up_to(65_535, said) {
        Ok(_) => None,
        Err(NumberError::Malformed) => Some(Fault::NoHandle(word)),
        Err(NumberError::TooLarge) => Some(Fault::HighHandle(word)),
    }
}

/// The fault of a block that is passed.
pub(crate) fn block_fault<'a>(names: &Names, word: Word<'a>) -> Option<Fault<'a>>
    ensures { IsFoundOfBlock names.now.uses word.entry result }
{
    match behind_at(word.bytes) {
        Some(said) => handle_fault(names, word, said),
        None => {
            if is_arrow(word.bytes) && !names.are_allowed() {
                Some(Fault::NotAllowed(word))
            } else {
                Some(Fault::NumberBehind(word))
            }
        }
    }
}
