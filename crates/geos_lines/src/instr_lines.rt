//! What is wrong with the line of an instruction.

ghost use Rattle.std.specs.Prelude.{◌≡◌, ◌≤◌, is_none, is_some, is_ok, length, drop, IfOk, IfErr};
ghost use Rattle.geos_opcodes.specs.Fields.{fields, is_written};
ghost use Rattle.geos_text.specs.Words.{words};
ghost use Rattle.geos_text.specs.Numbers as numbers;
ghost use Rattle.geos_text.specs.Registers.{register_of};
ghost use Rattle.geos_source.specs.Names as names;
ghost use Rattle.geos_lines.specs.Forms.{fits, kinds_of, IsOperand, StopsHere, StopsAt};

use crate::forms::{noun, put_form};
use crate::other_machines::meaning_of;
use crate::sentences::{
    COMMENT, CONSTANT, Wrong, begins_comment, other_file, put_above, put_quoted, put_too_much,
    put_word, put_wrong,
};
use crate::words::{Word, word_from};
use geos_opcodes::{FIELDS, OPCODES, Opcode, Operand, operand_at};
use geos_source::name_of;
use geos_text::{NumberError, number_up_to, register};
use sentence_text::Text;

/// Why a word is no operand of a kind.
#[derive(Clone, Copy)]
pub(crate) enum Misfit {
    /// It has another form.
    Form(Wrong),
    /// It is a number above this one.
    Above(u32),
}

/// Where the words after an instruction stop being operands of it.
#[derive(Clone, Copy)]
pub(crate) enum Stop<'a> {
    /// At a word, where an operand of this kind is required.
    At(Word<'a>, Operand, Misfit),
    /// At the end, where an operand of this kind is required.
    Missing(Operand),
    /// At a word after the operands.
    TooMuch(Word<'a>),
    /// Nowhere. This is the last operand, if there is one.
    Nowhere(Option<Word<'a>>),
}

/// Why a word is no register.
fn register_misfit(letter: u8, count: u8, word: &[u8], wrong: Wrong) -> Option<Misfit>
    requires { count ≤ 10 }
    ensures { is_none result ≡ is_some (register_of letter count word.now) }
{
    match register(letter, count, word) {
        Some(_) => None,
        None => Some(Misfit::Form(wrong)),
    }
}

/// Why a word is no number up to the greatest one.
pub(crate) fn number_misfit(greatest: u32, word: &[u8]) -> Option<Misfit>
    ensures { is_none result ≡ is_ok (numbers.number_up_to greatest word.now) }
{
    match number_up_to(greatest, word) {
        Ok(_) => None,
        Err(NumberError::Malformed) => Some(Misfit::Form(Wrong::NoNumber)),
        Err(NumberError::TooLarge) => Some(Misfit::Above(greatest)),
    }
}

/// Why a word is no name.
#[tactic(auto, unfolding(geos_source::specs::Names::name_of))]
pub(crate) fn name_misfit(word: &[u8]) -> Option<Misfit>
    ensures { is_none result ≡ names.is_name word.now }
{
    match name_of(word) {
        Some(_) => None,
        None => Some(Misfit::Form(Wrong::NoName)),
    }
}

/// Why a word is no operand of this kind, names aside that nothing has.
fn misfit_of(kind: Operand, word: &[u8]) -> Option<Misfit>
    ensures { is_none result ≡ fits kind word.now }
{
    match kind {
        Operand::Unused => None,
        Operand::Word => register_misfit(b'w', 8, word, Wrong::NoWord),
        Operand::Counter => register_misfit(b'k', 4, word, Wrong::NoCounter),
        Operand::Slot => register_misfit(b's', 4, word, Wrong::NoSlot),
        Operand::Pointer => register_misfit(b'p', 4, word, Wrong::NoPointer),
        Operand::Number => number_misfit(65_535, word),
        Operand::Shift => number_misfit(15, word),
        Operand::Routine | Operand::Label => name_misfit(word),
    }
}

/// Whether a text writes an operand of this kind.
fn is_written(kind: Operand) -> bool
    ensures { result ≡ is_written kind }
{
    !matches!(kind, Operand::Unused)
}

/// The first word of a line from an index on, if it is an operand of this kind; otherwise where words stop being operands.
fn operand_from(kind: Operand, line: &[u8], at: usize) -> Result<Word, Stop>
    requires { at ≤ length line.now }
    ensures ok { IfOk result (λ word. IsOperand kind (words (drop at line.now)) (words (drop word.end line.now))) }
    ensures within { IfOk result (λ word. word.end ≤ length line.now) }
    ensures err { IfErr result (StopsHere kind (words (drop at line.now))) }
{
    let Some(word) = word_from(line, at) else {
        return Err(Stop::Missing(kind));
    };
    match misfit_of(kind, word.bytes) {
        Some(misfit) => Err(Stop::At(word, kind, misfit)),
        None => Ok(word),
    }
}

/// Where the words of a line from an index on stop being operands of the opcode.
pub(crate) fn stop_of(opcode: Opcode, line: &[u8], from: usize) -> Stop
    requires { from ≤ length line.now }
    ensures { StopsAt (kinds_of opcode fields) (words (drop from line.now)) result }
{
    let mut at = from;
    let mut last = None;
    for i in 0..FIELDS.len() {
        let kind = operand_at(opcode, FIELDS[i]);
        if is_written(kind) {
            match operand_from(kind, line, at) {
                Ok(word) => {
                    last = Some(word);
                    at = word.end;
                }
                Err(stop) => return stop,
            }
        }
    }
    match word_from(line, at) {
        Some(word) => Stop::TooMuch(word),
        None => Stop::Nowhere(last),
    }
}

/// Appends why a word does not fit.
pub(crate) fn put_misfit(out: &mut Text, word: Word, misfit: Misfit) {
    match misfit {
        Misfit::Form(wrong) => put_wrong(out, word, wrong),
        Misfit::Above(bound) => put_above(out, word, bound),
    }
}

/// Appends that a name is none that the text has, and what begins a routine or a label of this name.
fn put_undefined(out: &mut Text, opcode: Opcode, last: Option<Word>) {
    let (what, before, after) = match opcode {
        Opcode::Call => ("; no routine", ": begin one by routine ", " budget N"),
        _ => (
            "; no label",
            ": write ",
            ": before an instruction of this routine",
        ),
    };
    out.put(what);
    match last {
        Some(word) => {
            out.put(" has the name ");
            put_word(out, word);
            out.put(before);
            out.put_bytes(word.bytes);
            out.put(after)
        }
        None => out.put(" has its name"),
    }
}

/// The instruction that takes a word where this one requires a number.
fn with_word(opcode: Opcode) -> Option<Opcode> {
    match opcode {
        Opcode::Ldi => Some(Opcode::Mov),
        Opcode::Setk => Some(Opcode::Setkw),
        Opcode::Ldb => Some(Opcode::Ldxb),
        Opcode::Ldw => Some(Opcode::Ldxw),
        Opcode::Stb => Some(Opcode::Stxb),
        Opcode::Stw => Some(Opcode::Stxw),
        _ => None,
    }
}

/// Appends why a word is no operand of this kind, or which instruction takes it.
fn put_stop(out: &mut Text, opcode: Opcode, kind: Operand, word: Word, misfit: Misfit) {
    let is_word = register(b'w', 8, word.bytes).is_some();
    match with_word(opcode) {
        Some(other) if kind == Operand::Number && is_word => {
            put_word(out, word);
            out.put(" is no number: say ");
            out.put(other.word());
            out.put(", which takes a word")
        }
        _ => put_misfit(out, word, misfit),
    }
}

/// Appends that a word is missing which is required.
pub(crate) fn put_missing(out: &mut Text, what: &str) {
    out.put("; ");
    out.put(what);
    out.put(" is missing")
}

/// Appends what is wrong with an instruction of this opcode, whose operands are in the line from an index on.
fn put_operands(out: &mut Text, opcode: Opcode, line: &[u8], from: usize)
    requires { from ≤ length line.now }
{
    put_form(out, opcode);
    match stop_of(opcode, line, from) {
        Stop::At(word, kind, misfit) => {
            out.put("; ");
            put_stop(out, opcode, kind, word, misfit)
        }
        Stop::Missing(kind) => put_missing(out, noun(kind)),
        Stop::TooMuch(word) => {
            out.put("; ");
            put_too_much(out, word)
        }
        Stop::Nowhere(last) => put_undefined(out, opcode, last),
    }
}

/// The word in capitals, if that is the word of an opcode.
fn in_capitals(word: &[u8]) -> Option<Opcode> {
    let mut capitals = [0; 16];
    if word.len() > capitals.len() {
        return None;
    }
    for i in 0..word.len() {
        capitals[i] = word[i].to_ascii_uppercase();
    }
    Opcode::from_word(&capitals[..word.len()])
}

/// The word that one in other letters stands for, of those that a line can begin with.
fn in_small_letters(word: &[u8]) -> Option<&'static str> {
    if word.eq_ignore_ascii_case(b"routine") {
        Some("routine")
    } else if word.eq_ignore_ascii_case(b"in") {
        Some("in")
    } else if word.eq_ignore_ascii_case(b"out") {
        Some("out")
    } else {
        None
    }
}

/// What is to be said in place of a word, if that has other letters than those that a line can begin with.
fn in_right_letters(word: &[u8]) -> Option<&'static str> {
    match in_capitals(word) {
        Some(opcode) => Some(opcode.word()),
        None => in_small_letters(word),
    }
}

/// Appends that a label and its colon are one word.
fn put_apart(out: &mut Text, label: &[u8]) {
    out.put(": write ");
    out.put_bytes(label);
    out.put(": without a space")
}

/// Whether a word is a name whose colon is the next word.
fn is_label_apart(word: &[u8], next: Option<Word>) -> bool {
    match next {
        Some(next) => next.bytes == b":".as_slice() && name_of(word).is_some(),
        None => false,
    }
}

/// Appends that a word may have been meant as a label.
fn put_label(out: &mut Text, word: &[u8]) {
    out.put(": for a label say ");
    put_quoted(out, word);
    out.put(" and a colon, in one word")
}

/// How many letters are the same at the beginning of two words, or at the end.
fn common(word: &[u8], other: &[u8], backward: bool) -> usize {
    let most = word.len().min(other.len());
    for n in 0..most {
        let (at, there) = if backward {
            (word.len() - 1 - n, other.len() - 1 - n)
        } else {
            (n, n)
        };
        if word[at].to_ascii_uppercase() != other[there] {
            return n;
        }
    }
    most
}

/// The letter at a place of a word, in capitals; 0 after its end.
fn capital_at(word: &[u8], at: usize) -> u8 {
    match word.get(at) {
        Some(letter) => letter.to_ascii_uppercase(),
        None => 0,
    }
}

/// Whether two letters of a word are those of another one, in the other order.
fn are_swapped(word: &[u8], other: &[u8], at: usize) -> bool {
    let next = at.saturating_add(1);
    capital_at(word, at) == capital_at(other, next)
        && capital_at(word, next) == capital_at(other, at)
}

/// Whether a word differs from one in capitals in one letter, which may be missing in one of them, or in the order of two.
fn is_near(word: &[u8], other: &[u8]) -> bool {
    let front = common(word, other, false);
    let same = front.saturating_add(common(word, other, true));
    let long = word.len().max(other.len());
    let short = word.len().min(other.len());
    if long == short && long == same.saturating_add(2) {
        return are_swapped(word, other, front);
    }
    long <= short.saturating_add(1) && long <= same.saturating_add(1)
}

/// The opcode with such a word of at least three letters.
fn nearest(word: &[u8]) -> Option<Opcode> {
    for opcode in &OPCODES {
        let other = opcode.word().as_bytes();
        if other.len() > 2 && is_near(word, other) {
            return Some(*opcode);
        }
    }
    None
}

/// Whether a word is a name that begins with a small letter.
fn is_small_name(word: &[u8]) -> bool {
    match word.first() {
        Some(letter) => letter.is_ascii_lowercase() && name_of(word).is_some(),
        None => false,
    }
}

/// What helps with a line that begins with a point, as `.global` and `.byte`.
const DIRECTIVE: &str =
    ": a text has no directives: public in the line routine exports a routine, and LALLOC makes a chunk for bytes";

/// What helps with a parenthesis.
const MACRO: &str =
    " is no instruction: write operands without parentheses, and for macros run m4 -s first";

/// Whether a word is a register of any kind.
fn is_register(word: &[u8]) -> bool {
    register(b'w', 8, word).is_some()
        || register(b'k', 4, word).is_some()
        || register(b's', 4, word).is_some()
        || register(b'p', 4, word).is_some()
}

/// Whether the word after another one gives that a value in other languages.
fn gives_name(next: Option<Word>) -> bool {
    match next {
        Some(next) => { next.bytes.eq_ignore_ascii_case(b"equ") || next.bytes == b"=".as_slice() }
        None => false,
    }
}

/// Appends another meaning that the author may have intended for a word: a file, a comment, a register, a directive or a label.
fn put_other(out: &mut Text, word: &[u8], next: Option<Word>) {
    if let Some(file) = other_file(word) {
        return out.put(file);
    }
    if begins_comment(word) {
        return out.put(COMMENT);
    }
    if word == b"public".as_slice() {
        return out.put(": public follows the name, as routine add public budget 3");
    }
    if is_register(word) {
        return out.put(": a line begins with its instruction, as ADD w0 w0 w1");
    }
    if word.starts_with(b".") {
        return out.put(DIRECTIVE);
    }
    match next {
        Some(next) if Opcode::from_word(next.bytes).is_some() && name_of(word).is_some() => {
            put_label(out, word)
        }
        _ if gives_name(next) => out.put(CONSTANT),
        None if is_small_name(word) => put_label(out, word),
        _ => out.put(", and none of routine, in and out"),
    }
}

/// What may have been meant by a word that is no label without its colon: an instruction of other machines, or one of this machine with a
/// wrong letter.
fn near(word: &[u8], next: Option<Word>) -> Option<&'static str> {
    let begins_instr = match next {
        Some(next) => Opcode::from_word(next.bytes).is_some(),
        None => false,
    };
    if gives_name(next) || is_small_name(word) && (next.is_none() || begins_instr) {
        return None;
    }
    let meaning = if begins_instr { None } else { meaning_of(word) };
    match meaning {
        Some(meaning) => Some(meaning),
        None => nearest(word).map(|opcode| opcode.word()),
    }
}

/// Appends what may have been meant by a word that no line begins with.
fn put_meant(out: &mut Text, word: Word, next: Option<Word>) {
    put_word(out, word);
    out.put(" is no instruction");
    if is_label_apart(word.bytes, next) {
        return put_apart(out, word.bytes);
    }
    match in_right_letters(word.bytes).or(near(word.bytes, next)) {
        Some(right) => {
            out.put(": say ");
            out.put(right)
        }
        None => put_other(out, word.bytes, next),
    }
}

/// Appends what is wrong with the line of an instruction that begins with a word.
pub(crate) fn put_instr(out: &mut Text, line: &[u8], word: Word)
    requires { word.end ≤ length line.now }
{
    if let Some(opcode) = Opcode::from_word(word.bytes) {
        return put_operands(out, opcode, line, word.end);
    }
    if word.bytes.ends_with(b":") {
        return put_wrong(out, word, Wrong::NoLabel);
    }
    if word.bytes.contains(&b'(') {
        put_word(out, word);
        return out.put(MACRO);
    }
    if word.bytes.starts_with(b"\xef\xbb\xbf")
        || word.bytes.contains(&b'\r')
        || word.bytes.contains(&b',')
    {
        return put_wrong(out, word, Wrong::NoInstruction);
    }
    put_meant(out, word, word_from(line, word.end))
}
