//! Colours of diagnostics on a terminal.

use std::env;
use std::io::IsTerminal;

/// Whether diagnostics are coloured, by the word that `--color` has: with `auto` or without a word, if standard error is a terminal, unless the
/// environment has a `NO_COLOR` that is not empty.
pub(crate) fn are_wanted(rt: &HostRuntime, when: &str) -> bool {
    let terminal_has_them = rt.stderr().is_terminal()
        && !matches!(env::var(rt, "NO_COLOR"), Ok(value) if !value.is_empty());
    when == "always" || when != "never" && terminal_has_them
}

/// Writes a diagnostic on standard error, with the word `error`, `warning` or `note` in its colour and bold, as compilers have it.
pub(crate) fn tell_coloured(rt: &HostRuntime, line: &str) {
    let (place, rest) = line.split_once(": ").unwrap_or((line, ""));
    let (word, message) = rest.split_once(": ").unwrap_or(("", rest));
    let colour = match word {
        "error" => 31,
        "warning" => 35,
        "note" => 36,
        _ => {
            let _ = eprintln!(rt; "{line}");
            return;
        }
    };
    let _ = eprintln!(rt; "{place}: \x1b[1;{colour}m{word}: \x1b[0m{message}");
}
