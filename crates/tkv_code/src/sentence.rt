//! Faults as sentences.

use crate::naming::{put_holders, put_name};
use geos_opcodes::Opcode;
use geos_text::put_numbered;
use std::alloc::AllocError;
use tkv_syntax::{Fault, LIBRARY, Name, Why, Word, name_at, place_of};

/// The sentence of each fault, in the order of `Why`. `@` stands for the name at the fault's offset, `~` for the name at its other offset,
/// `^` for the line of that, `#` for the number, `$` for the word, and `%` for what a call may have meant, or how it is written, or for the names
/// that hold words.
static SENTENCES: [(Why, &str); 79] = [
    (Why::Memory, "memory is refused"),
    (Why::TooLong, "a source has at most 1,048,576 bytes"),
    (
        Why::NoWord,
        "no word of the language begins with this: & and shifts are its only operators on bits, and // starts a comment",
    ),
    (
        Why::BadNumber,
        "expected a number from 0 to 65535 in decimal, after 0x or after 0b, or a quoted character",
    ),
    (
        Why::BadText,
        "a string has 1 to 64 characters, all on one line; the escapes are \\n, \\t, \\\\, \\' and \\\"",
    ),
    (
        Why::Text,
        "a string can only be the value of an array of bytes, as in p.name = \"Ada\" for name: byte[8]",
    ),
    (
        Why::LongText,
        "the string is longer than @, which has # bytes: shorten the string, or declare @ with more bytes",
    ),
    (Why::LongName, "a name has at most 16 letters"),
    (Why::Expected, "expected $"),
    (
        Why::ExpectedValue,
        "expected a value: a number, a name, a call or a bracket; p.w[0] reads a word through a pointer",
    ),
    (
        Why::NoSign,
        "expected a value: write 65535 for -1, 0 - x for -x, and n = n + 1 for n++ and n += 1",
    ),
    (
        Why::NoTruth,
        "a comparison is not a value: only if and while test it, and && or || joins two",
    ),
    (
        Why::ExpectedCondition,
        "expected a condition, such as x != 0, x < y or !(x < y)",
    ),
    (
        Why::Reserved,
        "@ is a word of the language and does not fit here: a name must be another word",
    ),
    (
        Why::ExpectedFn,
        "expected a declaration: fn, pub fn, const, struct, use or test; statements are between the { and } of a routine",
    ),
    (
        Why::ExpectedUse,
        "expected std: use std; declares mul, div and others, and a line use \"file.tkv\"; adds a file",
    ),
    (
        Why::Inner,
        "a routine contains no declaration: close the routine by } before this, or move this out",
    ),
    (
        Why::ExpectedParam,
        "expected a parameter, such as n, n <= 9, b: mem, b: vm, b: group or p: Note in b, and a comma between two",
    ),
    (
        Why::ExpectedField,
        "expected a field, such as money: word, tag: byte[4] or rows: Row[8]; a struct before this one declares Row",
    ),
    (Why::Empty, "a statement is before each ;: remove this one"),
    (
        Why::NoStatement,
        "no statement begins with @: let x = 1; names a word, out(x)?; prints it, and else if tests again",
    ),
    (
        Why::NoBody,
        "a { does not follow this: a lock names its block before, as in mlock(h)? as b { .. }",
    ),
    (
        Why::ExpectedFor,
        "expected a for such as for i in 0..10 { .. }, where i counts from 0 to 9",
    ),
    (
        Why::ExpectedMax,
        "expected a bound of the iterations before the {, as in max 100",
    ),
    (Why::NotRefusable, "this is never refused: remove the ?"),
    (
        Why::NotSettable,
        "this cannot be set: a word of let, a parameter or an access can, and a constant or the name that a for counts cannot",
    ),
    (Why::ManyParameters, "a routine has at most 8 parameters"),
    (
        Why::ExpectedLock,
        "expected mlock, vlock, ilock, mnew or vnew before as; ilock also names a pointer",
    ),
    (
        Why::Twice,
        "@ is already a name, since line ^: choose another one",
    ),
    (
        Why::TwiceSet,
        "@ is twice in this list of names: name each word once",
    ),
    (
        Why::InLibrary,
        "@ is a routine of std, which this source uses: choose another name",
    ),
    (
        Why::Instruction,
        "@ is the name of an instruction: choose another one",
    ),
    (
        Why::Unknown,
        "@ names nothing here: declare it before, in this block of statements or one around it",
    ),
    (Why::NoCall, "@ is neither a routine nor an instruction: %"),
    (
        Why::LockOnly,
        "@ locks a block for statements: write @(..)? as b { .. }",
    ),
    (
        Why::NoWordHere,
        "@ is not a word: write @.size for the bytes of a structure, read through a pointer, as in p.w[0], or call the routine that returns a word",
    ),
    (
        Why::NoConstant,
        "expected a constant: a number, or a name that const or struct declares",
    ),
    (
        Why::NoBlock,
        "expected a locked block: the name after as, or a parameter such as b: vm",
    ),
    (
        Why::NoPointer,
        "expected a pointer: deref and caelt return one, as in let p = deref(b, chunk, 8)?",
    ),
    (Why::Arguments, "@ takes # argument%"),
    (
        Why::NoField,
        "there is no field @: deref and caelt name the structure, and p.w[n] and p.b[n] need none",
    ),
    (
        Why::FieldIndex,
        "an array of fields, w and b require an index, as in p.list[0] or p.w[0], and nothing else has one",
    ),
    (
        Why::ConstantRange,
        "a constant is from 0 to 65535, a divisor is not 0, and a shift is at most 15",
    ),
    (
        Why::FailZero,
        "fail takes a number from 1 to 65535, or none",
    ),
    (
        Why::NoInstruction,
        "no instruction does this with two words: one must be a constant",
    ),
    (
        Why::Unsaid,
        "@ may be refused: write ? after it, or else after the statement",
    ),
    (
        Why::NoWayOut,
        "this may be refused, and the routine always returns a result: write else here, or ? after its result",
    ),
    (
        Why::Unset,
        "@ is not set on every path here: set it before, as in @ = 0",
    ),
    (
        Why::WhyUnknown,
        "why is not known here: read it in the statements that handle a refusal, and give each fail a number, as in fail 20",
    ),
    (
        Why::Stale,
        "@ may be stale: ~ on line ^ may move the chunks of its block; fetch it again",
    ),
    (
        Why::NotFetched,
        "a pointer is not fetched on every path here: fetch it before, by deref or caelt",
    ),
    (
        Why::NoWordLeft,
        "out of words: % hold all seven: use one for the last time before this, keep it in a chunk, or split the routine",
    ),
    (
        Why::NoPointerLeft,
        "out of pointers: four are taken here; { .. } ends names earlier",
    ),
    (
        Why::NoSlotLeft,
        "out of slots: four blocks are locked here; end a lock before",
    ),
    (
        Why::NoCounterLeft,
        "out of counters: loops nest at most four deep, with those of the routines that are called",
    ),
    (
        Why::Unreached,
        "nothing leads here: remove it, or the statement that always leaves before it",
    ),
    (
        Why::NoLoop,
        "this is not in a loop: return ends the routine, and the else of a loop is not in that loop",
    ),
    (
        Why::Commits,
        "@ writes the file, and a block of it is locked here: call it after the lock",
    ),
    (
        Why::PastEnd,
        "this is past the # bytes that the pointer is known to have: fetch it with a greater size",
    ),
    (
        Why::PastArray,
        "the index is not below #, the number of elements of @: write a lower one, or declare @ with more elements",
    ),
    (
        Why::PastPerhaps,
        "the index may not be below #, the number of elements of @: test it before, as in if i < # { .. }, or write ? at the end, as in p.list[i]?",
    ),
    (
        Why::Dropped,
        "the result is not used: name it, as in let x = ..",
    ),
    (
        Why::Values,
        "name as many words as the right side gives, so # here, as in let x, y = f(3)",
    ),
    (
        Why::Several,
        "@ returns # words, so it cannot be part of a value: name them first, as in let x, y = @(..)",
    ),
    (
        Why::Returns,
        "each path of a routine returns one value for each name after ->, so # here",
    ),
    (
        Why::CallsItself,
        "@ calls itself, which no routine may: write a loop",
    ),
    (
        Why::Public,
        "a public routine has no ? and no result, takes words and lent blocks, as b: vm, and no routine calls it; its else can print why, as in else { out(why)?; }",
    ),
    (
        Why::Kinds,
        "this is of another kind: a block must be mem, vm or group as the parameter says, and a pointer lead into the same block",
    ),
    (
        Why::NoTurn,
        "a loop has at least one iteration: raise its end, its max or its step",
    ),
    (
        Why::TooMany,
        "the program is too large or nests too deep: shorten it",
    ),
    (
        Why::NothingRefused,
        "nothing here can be refused: remove the else",
    ),
    (
        Why::AlwaysOrNever,
        "this is always true, or never: remove the test",
    ),
    (
        Why::NoEnd,
        "no path leads to the end of the routine: let one path end without fail",
    ),
    (
        Why::NoRoutine,
        "a program has at least one public routine: write pub before its fn",
    ),
    (
        Why::Untestable,
        "@ is no public routine of this source: a test calls routines with pub before their fn",
    ),
    (
        Why::PastBound,
        "~ is at most #, as line ^ says: write a lower number, or raise the bound",
    ),
    (
        Why::Refused,
        "the verifier refuses this by rule V#: test the index against its greatest value before it, as in if i <= 7 { .. }, or write ? after the bracket, as in p.list[i]? = 3",
    ),
    (
        Why::NoSteps,
        "@ may take more than 4,294,967,295 steps: test the number of iterations before a loop, as in if n <= 99 { .. }, or lower its max",
    ),
    (
        Why::OtherCode,
        "the code of @ is not what the source says: this is a fault of the compiler, please report it",
    ),
];

/// Sentences that a byte or a word at a fault's offset decides: the fault, the word that it speaks of, what is there, and the sentence.
static CLOSER: [(Why, Word, &str, &str); 9] = [
    (
        Why::NoWordHere,
        Word::Dot,
        "",
        "@ is a structure: name a field of it, as in p.rows[0].money",
    ),
    (
        Why::Expected,
        Word::Stop,
        "[",
        "expected ;: arrays are in chunks, as in let p = deref(b, c, 20)?; and then p.w[0]",
    ),
    (
        Why::Expected,
        Word::ParenEnd,
        "else",
        "expected ): name the value before this, as in let c = p.b[i] else break;, and write c here",
    ),
    (
        Why::NoInstruction,
        Word::End,
        "*",
        "one side of * must be a constant: with use std; write mul(x, y) for two words",
    ),
    (
        Why::NoInstruction,
        Word::End,
        "/",
        "a divisor is a power of two: with use std; write div(x, y)? for another one",
    ),
    (
        Why::NoInstruction,
        Word::End,
        "%",
        "a divisor is a power of two: with use std; write rem(x, y)? for another one",
    ),
    (
        Why::NoInstruction,
        Word::End,
        "&",
        "one side of & must be a constant: with use std; write and(x, y) for two words",
    ),
    (
        Why::NoInstruction,
        Word::End,
        "<<",
        "a shift is by a constant: double in a loop, as in for i in 0..n { x = x << 1; }",
    ),
    (
        Why::NoInstruction,
        Word::End,
        ">>",
        "a shift is by a constant: halve in a loop, as in for i in 0..n { x = x >> 1; }",
    ),
];

/// What calls of two and more arguments look like.
static FORMS: [&str; 25] = [
    "lalloc(b, size)",
    "lfree(b, chunk)",
    "lrealloc(b, chunk, size)",
    "lins(b, chunk, offset, count)",
    "ldel(b, chunk, offset, count)",
    "lsize(b, chunk)",
    "deref(b, chunk, size)",
    "copy(p, q, size)",
    "canew(b, size)",
    "caadd(b, array, size)",
    "cains(b, array, i, size)",
    "cadel(b, array, i)",
    "cacount(b, array)",
    "caelt(b, array, i, size)",
    "cazero(b, array)",
    "caresize(b, array, i, size)",
    "vnew(h, uid)",
    "vfind(h, uid)",
    "inew(g, size)",
    "ifree(g, item)",
    "irealloc(g, item, size)",
    "iins(g, item, offset, count)",
    "idel(g, item, offset, count)",
    "ilock(g, item, size)",
    "isetmap(g, item)",
];

/// Whether the text has these bytes at an offset.
fn stands(text: &[u8], at: u32, bytes: &[u8]) -> bool {
    for (k, byte) in bytes.iter().enumerate() {
        if text.get((at as usize).saturating_add(k)) != Some(byte) {
            return false;
        }
    }
    true
}

/// The sentence of a fault.
fn sentence_of(text: &[u8], fault: &Fault) -> &'static str {
    for (why, word, there, sentence) in &CLOSER {
        let same = *why as usize == fault.why as usize && *word == fault.word;
        if same && stands(text, fault.at, there.as_bytes()) {
            return sentence;
        }
    }
    SENTENCES[fault.why as usize].1
}

/// Appends the form of the call, if its name has one, after the end of the word before it.
fn put_form(out: &mut Vec<u8>, text: &[u8], fault: &Fault) -> Result<(), AllocError> {
    if fault.number != 1 {
        out.push(b's')?;
    }
    let name = name_at(text, fault.at);
    for form in &FORMS {
        let named = name_at(form.as_bytes(), 0) == name;
        if named {
            out.extend_from_slice(b": ")?;
            out.extend_from_slice(form.as_bytes())?;
        }
    }
    Ok(())
}

/// Whether the library declares a routine of this name.
fn is_in_library(name: Name) -> bool {
    LIBRARY
        .split("fn ")
        .any(|rest| name_at(rest.as_bytes(), 0) == name)
}

/// Appends what the call of a name may have meant that nothing has.
fn put_meant(out: &mut Vec<u8>, text: &[u8], fault: &Fault) -> Result<(), AllocError> {
    let name = name_at(text, fault.at);
    if name[..4].eq_ignore_ascii_case(b"out\0") {
        return out.extend_from_slice(b"write out(x)? to print a word");
    }
    if is_in_library(name) {
        return out.extend_from_slice(b"use std; declares it");
    }
    if fault.number == 0 {
        return out.extend_from_slice(b"fn declares a routine, and out(x)? prints a word");
    }
    out.extend_from_slice(b"perhaps ")?;
    match Opcode::from_code(fault.number.min(255) as u8) {
        Some(opcode) => {
            for byte in opcode.word().as_bytes() {
                out.push(byte.to_ascii_lowercase())?;
            }
        }
        None => put_name(out, text, fault.other)?,
    }
    out.extend_from_slice(b" is meant")
}

/// Appends what `%` stands for.
fn put_more(out: &mut Vec<u8>, text: &[u8], fault: &Fault) -> Result<(), AllocError> {
    match fault.why {
        Why::Arguments => put_form(out, text, fault),
        Why::NoWordLeft => put_holders(out, text, &fault.holders),
        _ => put_meant(out, text, fault),
    }
}

/// Appends a byte of a sentence, or what it stands for.
fn put_part(out: &mut Vec<u8>, text: &[u8], fault: &Fault, byte: u8) -> Result<(), AllocError> {
    match byte {
        b'@' => put_name(out, text, fault.at),
        b'~' => put_name(out, text, fault.other),
        b'^' => put_numbered(out, "", place_of(text, fault.other).line as u64),
        b'#' => put_numbered(out, "", u64::from(fault.number)),
        b'%' => put_more(out, text, fault),
        b'$' => out.extend_from_slice(fault.word.text().as_bytes()),
        other => out.extend_from_slice(&[other]),
    }
}

/// Appends a fault as a sentence, after its line and column. `AllocError` if the allocator refuses memory.
pub fn put_sentence(out: &mut Vec<u8>, text: &[u8], fault: &Fault) -> Result<(), AllocError> {
    let place = place_of(text, fault.at);
    put_numbered(out, "line ", place.line as u64)?;
    put_numbered(out, ", column ", place.column as u64)?;
    out.extend_from_slice(b": ")?;
    for byte in sentence_of(text, fault).as_bytes() {
        put_part(out, text, fault, *byte)?;
    }
    Ok(())
}
