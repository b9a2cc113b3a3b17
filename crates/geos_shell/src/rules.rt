//! Which words that `clap` takes are wrong all the same.

use crate::command_line::parts_of;
use crate::given::Given;
use crate::language::is_language;
use crate::numbers::{number_in, steps_in};
use crate::row_fields::are_fields;
use crate::step_choice::{Chunk, Condition, Line};

/// The rules, in the order in which they are tested. A line has the command, or `*` for any; then conditions, with blanks between them;
/// and after `: ` what is wrong if all of them are met:
///   name            words are given under the name
///   name=-          one of them is the standard input
///   name+other=--   so are two of those under both names
///   name==other     the same word is given under both names
///   name~           what is given names no steps of a run
///   name?0..9/3     what is given is no multiple of 3 from 0 to 9
///   name%           one of the words under the name has not the form of these
///   !name           the condition is not met
const RULES: &str = "\
* area?512..16777216/512: the number of '--area' is a multiple of 512 from 512 to 16777216
* region?65536..16777216/1: the number of '--region' is from 65536 to 16777216
* steps~: '--steps' takes N, from 0 to 1000000, or A..B, from 1 to 1000000
* from?1..1000000/1: the number of '--from' is from 1 to 1000000
trace from steps: only one of '--from' and '--steps' can be given
trace break%: '--break' takes ROUTINE:LINE, with the number or the label of a line, as main:12
trace when%: '--when' takes a register, w0 to w7 or k0 to k3, then < <= = != >= or >, and a number from 0 to 65535, as w3>48
trace watch%: '--watch' takes H:C for a block of FILE, or mem:H:C, with numbers from 0 to 65535
trace watch only: only one of '--only' and '--watch' can be given
trace count break: '--break', '--when' and '--watch' can't be given with '--count' or '--html'
trace count when: '--break', '--when' and '--watch' can't be given with '--count' or '--html'
trace count watch: '--break', '--when' and '--watch' can't be given with '--count' or '--html'
trace html break: '--break', '--when' and '--watch' can't be given with '--count' or '--html'
trace html when: '--break', '--when' and '--watch' can't be given with '--count' or '--html'
trace html watch: '--break', '--when' and '--watch' can't be given with '--count' or '--html'
* language%: '--language' takes tkv or asm
* fields%: '--fields' takes 1, 2 and Nt, with N from 1 to 65527, and a comma between them, as 2,2,8t
* fields !array: '--fields' requires '--array'
put array AT: '--array' replaces all elements, so AT can't be given
put array new-block: '--array' requires H and C
put array new-group: '--array' requires H and C
put array new-chunk: '--array' requires H and C
put array new-item: '--array' requires H and C
get json !array: '--json' requires '--array'
* width?60..1000/1: the number of '--width' is from 60 to 1000
* H?0..65535/1: H is a number from 0 to 65535
* C?0..65535/1: C is a number from 0 to 65535
* AT?0..65535/1: AT is a number from 0 to 65535
call IN=- !NAME: IN is the standard input, so NAME has to be given
call update save: only one of '--update' and '--save' can be given
call update !file: '--update' and '--save' require '--file'
call save !file: '--update' and '--save' require '--file'
call expect NAME: '--expect' is for a script, so NAME can't be given
trace html count: '--html' can't be given with '--only' or '--count'
trace html only: '--html' can't be given with '--only' or '--count'
test IN+SCRIPT=--: only one of IN and SCRIPT.. is the standard input
test junit=-: '--junit' requires a file OUT
put new-block?0..65535/1: UID is a number from 0 to 65535
put new-chunk?0..65535/1: H is a number from 0 to 65535
put new-item?0..65535/1: G is a number from 0 to 65535
put !C !new-block !new-group !new-chunk !new-item: H and C have to be given, or an option '--new-..'
put H new-block: only one of H, '--new-block', '--new-group', '--new-chunk' and '--new-item' can be given
put H new-group: only one of H, '--new-block', '--new-group', '--new-chunk' and '--new-item' can be given
put H new-chunk: only one of H, '--new-block', '--new-group', '--new-chunk' and '--new-item' can be given
put H new-item: only one of H, '--new-block', '--new-group', '--new-chunk' and '--new-item' can be given
put new-block new-group: only one of H, '--new-block', '--new-group', '--new-chunk' and '--new-item' can be given
put new-block new-chunk: only one of H, '--new-block', '--new-group', '--new-chunk' and '--new-item' can be given
put new-block new-item: only one of H, '--new-block', '--new-group', '--new-chunk' and '--new-item' can be given
put new-group new-chunk: only one of H, '--new-block', '--new-group', '--new-chunk' and '--new-item' can be given
put new-group new-item: only one of H, '--new-block', '--new-group', '--new-chunk' and '--new-item' can be given
put new-chunk new-item: only one of H, '--new-block', '--new-group', '--new-chunk' and '--new-item' can be given
put item new-block: '--item' requires H and C
put item new-group: '--item' requires H and C
put item new-chunk: '--item' requires H and C
put item new-item: '--item' requires H and C
dump arrays json: only one of '--arrays' and '--json' can be given
shell IN=-: lines are read from the standard input, so IN is a file
shell journal=-: '--journal' requires a file OUT
asm IN==OUT !IN=-: IN and OUT are one file, and the text would be lost
explain !script vars: '--vars' is for a script, so '--script' has to be given
explain html script: only one of '--html' and '--script' can be given
map html width: only one of '--html' and '--width' can be given
explain IMAGE+script=--: only one of IMAGE and SCRIPT is the standard input
run IMAGE+SCRIPT=--: only one of IMAGE and SCRIPT is the standard input
* hex signed: only one of '--hex', '--signed' and '--text' can be given
* hex text: only one of '--hex', '--signed' and '--text' can be given
* signed text: only one of '--hex', '--signed' and '--text' can be given
run update save: only one of '--update' and '--save' can be given
* in-place TEXT=-: '--in-place' requires a file TEXT, and no OUT
* in-place OUT: '--in-place' requires a file TEXT, and no OUT
budget TEXT==OUT !TEXT=-: TEXT and OUT are one file, and the text would be lost
fmt TEXT==OUT !TEXT=-: TEXT and OUT are one file, and the text would be lost
* most-steps?0..4294967295/1: the number of '--most-steps' is from 0 to 4294967295
* most-bytes?0..4294967295/1: the number of '--most-bytes' is from 0 to 4294967295
* most-blocks?0..1024/1: the number of '--most-blocks' is from 0 to 1024
* json diagnostics: only one of '--json' and '--diagnostics' can be given
* json hex: only one of '--json' and '--hex' can be given
* json signed: only one of '--json' and '--signed' can be given
* json text: only one of '--json' and '--text' can be given
* json label: only one of '--json' and '--label' can be given
* json expect: only one of '--json' and '--expect' can be given
* json html: only one of '--json' and '--html' can be given
* json script: only one of '--json' and '--script' can be given
* json OUT=-: only one of '--json' and OUT '-' can be given";

/// Whether a word is no multiple of a number within the limits, as a rule writes them.
fn is_outside(word: &str, limits: &str) -> bool {
    let (range, unit) = parts_of(limits, '/');
    let (least, most) = range.split_once("..").unwrap_or((range, range));
    match (
        number_in(word),
        number_in(least),
        number_in(most),
        number_in(unit),
    ) {
        (Some(n), Some(least), Some(most), Some(unit)) => {
            n < least || most < n || n.checked_rem(unit) != Some(0)
        }
        _ => true,
    }
}

/// Whether a word has the form of those under the name.
fn has_form(name: &str, word: &str) -> bool {
    match name {
        "break" => Line::of(word).is_some(),
        "when" => Condition::of(word).is_some(),
        "watch" => Chunk::of(word).is_some(),
        "language" => is_language(word),
        _ => are_fields(word),
    }
}

/// Whether one of the words under the name has not their form.
fn has_malformed(given: &Given<'_, '_>, name: &str) -> bool {
    for word in given.words(name) {
        if !has_form(name, word) {
            return true;
        }
    }
    false
}

/// Whether a condition of a rule is met, apart from a `!` before it.
fn is_met(given: &Given<'_, '_>, condition: &str) -> bool {
    if let Some(name) = condition.strip_suffix("~") {
        return matches!(given.setting(name), Some(word) if steps_in(word).is_none());
    }
    if let Some(name) = condition.strip_suffix("%") {
        return has_malformed(given, name);
    }
    if let Some((name, limits)) = condition.split_once('?') {
        return matches!(given.setting(name), Some(word) if is_outside(word, limits));
    }
    if let Some((name, other)) = condition.split_once("==") {
        return given.setting(name) == given.setting(other);
    }
    match condition.split_once("=-") {
        Some((names, more)) => given.streams(names) > more.len(),
        None => given.has(condition),
    }
}

/// Whether the words of the command break a rule.
fn is_broken(given: &Given<'_, '_>, command: &str, rule: &str) -> bool {
    let (of, conditions) = parts_of(rule, ' ');
    if of != "*" && of != command {
        return false;
    }
    for condition in conditions.split(' ') {
        let is_broken = match condition.strip_prefix("!") {
            Some(condition) => !is_met(given, condition),
            None => is_met(given, condition),
        };
        if !is_broken {
            return false;
        }
    }
    true
}

/// What is wrong with the words of the command, by the first rule that they break.
pub(crate) fn misuse_of(given: &Given<'_, '_>, command: &str) -> Option<&'static str> {
    for line in RULES.lines() {
        let (rule, message) = line.split_once(": ").unwrap_or((line, ""));
        if is_broken(given, command, rule) {
            return Some(message);
        }
    }
    None
}
