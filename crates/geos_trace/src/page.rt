//! The page.

use crate::json::Json;
use crate::notes::Notes;
use crate::page_begin::BEFORE_RUN;
use crate::page_panels::PANELS;
use crate::page_run::AFTER_RUN;
use geos_machine::Outcome;
use std::alloc::{AllocError, Global};

/// The most bytes of a page.
const MOST_PAGE: usize = 256 << 20;

/// What a page tells beside notes of the run.
#[derive(Clone, Copy)]
pub struct Told<'a> {
    /// What the text or the image is called.
    pub file: &'a str,
    /// The name of the routine, and its words.
    pub name: &'a str,
    pub words: &'a [&'a str],
    /// The lines of `geos explain`.
    pub explained: &'a [u8],
    /// Whether the explained lines are those of a text, whose numbers the steps have, and not of an image.
    pub is_text: bool,
    /// The lines of `geos trace`.
    pub traced: &'a [u8],
    /// The budget of the routine.
    pub budget: u32,
}

/// Appends the name of a member, and a string.
fn put_string_member(out: &mut Json, name: &str, value: &[u8]) {
    out.put(name.as_bytes());
    out.put_string(value);
}

/// Appends the name of a member, and a number.
fn put_number_member(out: &mut Json, name: &str, value: u64) {
    out.put(name.as_bytes());
    out.put_number(value);
}

/// Appends the call: the name of the routine, and its words.
fn put_call(out: &mut Json, told: &Told<'_>) {
    put_string_member(out, ",\n\"call\":[", told.name.as_bytes());
    for word in told.words {
        put_string_member(out, ",", word.as_bytes());
    }
    out.put(b"]");
}

/// Appends the words that the run output.
fn put_output(out: &mut Json, outcome: &Outcome) {
    out.put(b",\n\"output\":[");
    let mut sign: &[u8] = b"";
    for word in outcome.output.as_slice() {
        out.put(sign);
        out.put_number(u64::from(*word));
        sign = b",";
    }
    out.put(b"]");
}

/// Writes all members that come before the notes.
fn put_told(out: &mut Json, told: &Told<'_>, outcome: &Outcome) {
    out.put(b"{\"form\":1");
    put_string_member(out, ",\n\"file\":", told.file.as_bytes());
    put_call(out, told);
    put_number_member(out, ",\n\"text\":", u64::from(told.is_text));
    put_number_member(out, ",\n\"steps\":", u64::from(outcome.steps));
    put_number_member(out, ",\n\"budget\":", u64::from(told.budget));
    put_output(out, outcome);
    put_string_member(out, ",\n\"explained\":", told.explained);
    put_string_member(out, ",\n\"traced\":", told.traced);
}

/// Whether values were left out, as JSON.
fn is_cut(json: &Json) -> &'static [u8] {
    if json.is_full() { b"true" } else { b"false" }
}

/// Appends the notes, and whether some were left out.
fn put_notes(out: &mut Json, notes: &Notes) {
    let (states, blocks) = (notes.states(), notes.blocks());
    put_number_member(out, ",\n\"skipped\":", u64::from(notes.skipped()));
    out.put(b",\n\"states_cut\":");
    out.put(is_cut(states));
    out.put(b",\n\"blocks_cut\":");
    out.put(is_cut(blocks));
    out.put(b",\n\"states\":[\n");
    out.put(states.values());
    out.put(b"],\n\"blocks\":[\n");
    out.put(blocks.values());
    out.put(b"]}\n");
}

/// The page of a run: one HTML file, with the run as JSON in a script. `AllocError` if the allocator refuses memory, or if the page is too
/// long.
pub fn html(
    alloc: Global,
    told: &Told<'_>,
    outcome: &Outcome,
    notes: &Notes,
) -> Result<Vec<u8>, AllocError> {
    let mut out = Json::new(alloc, MOST_PAGE);
    out.put(BEFORE_RUN.as_bytes());
    put_told(&mut out, told, outcome);
    put_notes(&mut out, notes);
    out.put(AFTER_RUN.as_bytes());
    out.put(PANELS.as_bytes());
    out.into_bytes()
}
