//! Refusals as diagnostics: a line for each, with the file and the line of the text, so that editors go there.

use crate::refused::{Refusal, RefusalList, find_refusals};
use crate::saying::Saying;
use geos_image::Image;
use geos_verify::Rule;
use std::alloc::{AllocError, Global};

/// How many refusals have a line.
const MOST: usize = 20;

/// Writes the line of a refusal, with the line of the instruction, or without a text its routine and pc.
fn put_line(out: &mut Saying, file: &str, image: &Image, refusal: &Refusal) {
    out.text(file);
    match out.lines.get(usize::from(refusal.pc)).copied() {
        Some(line) => {
            out.number(":", line as u64);
        }
        None => {
            if refusal.routine < image.count() {
                out.name(": routine ", image.routine(refusal.routine).name_text())
                    .number(", pc ", refusal.pc as u64);
            }
        }
    }
    out.number(": error: V", refusal.rule as u64)
        .name(":", refusal.sentence.as_slice())
        .text("\n");
}

/// The refusals of an image as diagnostics: for each of the first 20 a line `FILE:LINE: error: VK: SENTENCE`, and how many more there are.
/// `lines` has the number of each instruction's line in the text FILE, as `geos_source::parse` gives them; if it is empty, a line begins with
/// `FILE: routine NAME, pc N: error:`. `refused` is as for `explain`, and so is the time.
pub fn diagnose(
    alloc: Global,
    file: &str,
    lines: &[u32],
    image: &Image,
    refused: &[Option<Rule>],
) -> Result<Vec<u8>, AllocError> {
    let RefusalList { list, more } = find_refusals(alloc, lines, image, refused, MOST)?;
    let mut out = Saying::new(alloc, lines);
    for refusal in &list {
        put_line(&mut out, file, image, refusal);
    }
    if more > 0 {
        out.text(file)
            .number(": note: and ", more as u64)
            .text(" more\n");
    }
    out.finish()
}
