//! The usages of the commands, and what misuse is answered.

use crate::answer::Answer;
use std::alloc::{AllocError, Global};

pub(crate) const USAGES: &str = "\
geos call IN [NAME [N..]] [--file FILE [--update | --save]] [--grant EFFECTS] [--most-steps N] [--most-bytes N] [--most-blocks N] [--region N] [--strict] [--expect] [FORM | --json] [--language LANGUAGE]
       geos trace IN NAME [N..] [--steps N|A..B | --from STEP] [--only ROUTINE | --count | --html OUT] [--break ROUTINE:LINE].. [--when CONDITION].. [--watch H:C] [--file FILE] [--grant EFFECTS] [--most-steps N] [--most-bytes N] [--most-blocks N] [--region N] [--json] [--language LANGUAGE]
       geos test IN [SCRIPT..] [--file FILE] [--junit OUT] [--coverage] [--region N] [--language LANGUAGE]
       geos asm IN OUT [--all-rows] [--json] [--language LANGUAGE]
       geos budget TEXT [OUT | --in-place] [--language LANGUAGE]
       geos fmt TEXT [OUT | --in-place] [--language LANGUAGE]
       geos list IMAGE [--language LANGUAGE]
       geos check IMAGE [--json] [--language LANGUAGE]
       geos explain IMAGE [--script SCRIPT [--vars] | --html OUT | --json] [--language LANGUAGE]
       geos new FILE [--area N]
       geos copy FILE NEW [--area N] [--saved]
       geos run IMAGE FILE SCRIPT [--grant EFFECTS] [--most-steps N] [--most-bytes N] [--most-blocks N] [--region N] [--strict] [--expect] [--vars] [--update | --save] [FORM] [--language LANGUAGE]
       geos put FILE (H C [AT] [--item] | --new-block UID | --new-group | --new-chunk H | --new-item G) [--array IN [--fields FIELDS]] [--region N]
       geos get FILE H C [--item] [--array [--fields FIELDS] [--json]] [--region N]
       geos dump FILE [H [C]] [--saved] [--chunks | --arrays] [--json]
       geos diff A B [--saved]
       geos map FILE [--width N | --html OUT]
       geos shell [IN] [--file FILE] [--journal OUT] [--region N]
       geos lsp
       geos < SESSION
       geos help [COMMAND | TOPIC]";

/// The usage of a command: its line of the usages, after `geos `.
fn usage_of(command: &str) -> &'static str {
    for usage in USAGES.split("geos ") {
        if usage.starts_with(command) {
            return usage.trim_end();
        }
    }
    USAGES
}

/// What the words of the command are answered, in the form of what `clap` says.
pub(crate) fn misuse(alloc: Global, message: &str, command: &str) -> Answer {
    let usage = usage_of(command);
    match format!(in alloc;
        "error: {message}\n\nUsage: geos {usage}\n\nFor more information, try '--help'.\n"
    ) {
        Ok(text) => Answer::Misuse(text),
        Err(AllocError) => Answer::Memory,
    }
}
