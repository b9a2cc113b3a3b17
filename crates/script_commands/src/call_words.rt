//! One call that words name, and why it is none.

ghost use Rattle.std.specs.Prelude.{◌≡◌, ◌≤◌, length, take, drop, not, None};
ghost use Rattle.std.specs.List.{count_by};
ghost use Rattle.geos_image.specs.Legal.{is_own};
ghost use Rattle.script_commands.specs.CallWords.{borrowed, takes, IsWhyNoCall};
ghost use Rattle.script_commands.specs.Lines.{before_blocks, call_named, from_blocks};
ghost use Rattle.script_commands.specs.Reading.{texts};

use crate::call_fault::CallFault;
use crate::command::Call;
use crate::lines::{call_named, names_block, registers_of, routine_named};
use crate::words::Words;
use geos_image::SlotState;
use geos_verify::{Checked, admits_words};

/// The number of words before the first that names a block.
fn numbers_in(words: &[&str]) -> usize
    ensures numbers { before_blocks (texts words.now) ≡ texts (take result words.now) }
    ensures blocks { from_blocks (texts words.now) ≡ texts (drop result words.now) }
    ensures within { result ≤ length words.now }
{
    let mut count = 0;
    while count < words.len() && !names_block(words[count].as_bytes()) {
        count += 1;
    }
    count
}

/// The call of the routine of that name on these numbers and the blocks that follow them, if the machine admits it.
pub fn call_on(checked: &Checked, name: &str, words: &[&str]) -> Option<Call>
    ensures { result ≡ call_named checked.now name.now (texts words.now) }
{
    call_named(checked, name.as_bytes(), Words::Apart(words))
}

/// Whether a public routine has the name, and may be called on the numbers before the blocks.
fn takes(checked: &Checked, name: &str, numbers: &[&str]) -> bool
    ensures { result ≡ takes checked.now name.now (before_blocks (texts numbers.now)) }
{
    let Some(routine) = routine_named(checked.image(), name.as_bytes()) else {
        return false;
    };
    match registers_of(Words::Apart(numbers)) {
        Some(words) => admits_words(checked, routine, &words),
        None => false,
    }
}

/// How many slots are borrowed.
fn borrowed_in(states: &[SlotState; 4]) -> usize
    ensures { result ≡ count_by (λ state. not (is_own state)) states.now }
{
    states.iter().filter(|state| !state.is_own()).count()
}

/// How many blocks the routine of the name borrows.
fn borrowed(checked: &Checked, name: &str) -> usize
    ensures { result ≡ borrowed checked.now name.now }
{
    match routine_named(checked.image(), name.as_bytes()) {
        Some(routine) => borrowed_in(&checked.image().routine(routine).entry.slots),
        None => 0,
    }
}

/// Why words are no call.
pub fn why_no_call(checked: &Checked, name: &str, words: &[&str]) -> CallFault
    requires { call_named checked.now name.now (texts words.now) ≡ None }
    ensures { IsWhyNoCall checked.now name.now (texts words.now) result }
{
    let numbers = &words[..numbers_in(words)];
    let mut word = 0;
    while takes(checked, name, &numbers[..word]) {
        if word == numbers.len() {
            return CallFault::BadBlocks(borrowed(checked, name));
        }
        word += 1;
    }
    CallFault::BadWord(word)
}
