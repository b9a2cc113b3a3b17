//! Grants, as the command line has them.

ghost use Rattle.std.specs.Prelude.{◌<◌, IfSome};

use geos_grants::Effects;

/// The slot after a word, as `0` in `reads-s0`.
fn slot_behind(word: &str, front: &str) -> Option<usize>
    ensures { IfSome result (λ slot. slot < 4) }
{
    match word.strip_prefix(front) {
        Some("0") => Some(0),
        Some("1") => Some(1),
        Some("2") => Some(2),
        Some("3") => Some(3),
        _ => None,
    }
}

/// Grants what a word on slots names, if it is one.
fn grant_slots(grants: &mut Effects, word: &str) -> bool {
    if word == "reads-lent" {
        grants.reads_lent = [true; 4];
    } else if word == "changes-lent" {
        grants.changes_lent = [true; 4];
    } else if let Some(slot) = slot_behind(word, "reads-s") {
        grants.reads_lent[slot] = true;
    } else if let Some(slot) = slot_behind(word, "changes-s") {
        grants.changes_lent[slot] = true;
    } else {
        return false;
    }
    true
}

/// Grants what a word names, if it is one.
fn grant_word(grants: &mut Effects, word: &str) -> bool {
    if word == "output" {
        grants.output = true;
    } else if word == "memory" {
        grants.memory = true;
    } else if word == "locks-by-handle" {
        grants.locks_by_handle = true;
    } else if word == "reads-file" {
        grants.reads_file = true;
    } else if word == "changes-file" {
        grants.changes_file = true;
    } else if word == "map" {
        grants.map = true;
    } else if word == "commits" {
        grants.commits = true;
    } else {
        return word == "none" || grant_slots(grants, word);
    }
    true
}

/// The effects that a list of words with commas grants, as `output,changes-lent`. `None` if one of them is no such word.
pub fn grants_of(list: &str) -> Option<Effects> {
    let mut grants = Effects::none();
    for word in list.split(',') {
        if !grant_word(&mut grants, word) {
            return None;
        }
    }
    Some(grants)
}
