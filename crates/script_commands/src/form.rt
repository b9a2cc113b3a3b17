//! How outputs are written.

ghost use Rattle.std.specs.Prelude.{◌≡◌, ◌≤◌, ◌<◌, ◌++◌, IfOk, OnOk, flat_map, decimal, length};
ghost use Rattle.std.specs.Str.Lines.{lines};
ghost use Rattle.script_commands.specs.Forms.{hex_digit, hex_word, signed_word, text_word, word_in, line_in, lines_in, in_form, on_a_line};
ghost use Rattle.script_commands.specs.Forms.{words_said, commit_word, label_of, shown_in};
ghost use Rattle.script_commands.specs.Names.{first_put_out};
ghost use Rattle.script_commands.specs.Lines.{IsAdmitted};
ghost use Rattle.script_commands.specs.declared.command.Command.TheVariants as command;

use crate::command::{Call, Command};
use crate::lent::lent_handles;
use geos_image::Image;
use geos_text::{first_line, number, put_numbered};
use geos_verify::Checked;
use std::alloc::{AllocError, Global};
use vm_file::How;

/// How an output word is written.
#[derive(Clone, Copy)]
pub enum Writing {
    /// In decimal, on a line.
    Decimal,
    /// In four hexadecimal digits after `0x`, on a line.
    Hex,
    /// As a number from -32,768 to 32,767, on a line.
    Signed,
    /// As bytes of a text: one byte if it is below 256, otherwise two, the low one first. The whole output of a call is one line.
    Text,
}

/// How an output is written.
#[derive(Clone, Copy)]
pub struct Form {
    /// How each word is.
    pub writing: Writing,
    /// Whether each line begins with its command: `NAME n.. @h..: `, without zeros at the end of the words.
    pub label: bool,
}

/// A hexadecimal digit.
fn hex_digit(n: u16) -> u8
    requires { n < 16 }
    ensures { result ≡ hex_digit n }
{
    if n < 10 {
        b'0' + n as u8
    } else {
        b'a' + (n as u8 - 10)
    }
}

fn put_hex(out: &mut Vec<u8>, word: u16) -> Result<(), AllocError>
    ensures { OnOk result (out.new.items ≡ out.old.items ++ hex_word word) }
{
    let digits = [
        b'0',
        b'x',
        hex_digit(word / 4096),
        hex_digit(word / 256 % 16),
        hex_digit(word / 16 % 16),
        hex_digit(word % 16),
    ];
    out.extend_from_slice(&digits)
}

fn put_signed(out: &mut Vec<u8>, word: u16) -> Result<(), AllocError>
    ensures { OnOk result (out.new.items ≡ out.old.items ++ signed_word word) }
{
    let word = u64::from(word);
    if word < 32_768 {
        put_numbered(out, "", word)
    } else {
        put_numbered(out, "-", 65_536 - word)
    }
}

fn put_bytes(out: &mut Vec<u8>, word: u16) -> Result<(), AllocError>
    ensures { OnOk result (out.new.items ≡ out.old.items ++ text_word word) }
{
    if word < 256 {
        out.extend_from_slice(&[word as u8])
    } else {
        out.extend_from_slice(&[(word % 256) as u8, (word / 256) as u8])
    }
}

fn put_word(out: &mut Vec<u8>, writing: Writing, word: u16) -> Result<(), AllocError>
    ensures { OnOk result (out.new.items ≡ out.old.items ++ word_in writing word) }
{
    match writing {
        Writing::Decimal => put_numbered(out, "", u64::from(word)),
        Writing::Hex => put_hex(out, word),
        Writing::Signed => put_signed(out, word),
        Writing::Text => put_bytes(out, word),
    }
}

fn put_line(out: &mut Vec<u8>, writing: Writing, line: &[u8]) -> Result<(), AllocError>
    ensures { OnOk result (out.new.items ≡ out.old.items ++ line_in writing line.now) }
{
    match number(line) {
        Some(word) => put_word(out, writing, word),
        None => out.extend_from_slice(line),
    }
}

/// The lines of a text in a form, each between a front and an end.
fn lines_in(
    alloc: Global,
    writing: Writing,
    front: &[u8],
    end: &[u8],
    plain: &[u8],
) -> Result<Vec<u8>, AllocError>
    ensures { IfOk result (λ text. text.items ≡ lines_in writing front.now end.now (lines plain.now)) }
{
    let mut text = Vec::new(alloc);
    let mut rest = plain;
    while !rest.is_empty() {
        let (line, behind) = first_line(rest);
        rest = behind;
        text.extend_from_slice(front)?;
        put_line(&mut text, writing, line)?;
        text.extend_from_slice(end)?;
    }
    Ok(text)
}

/// A line of a prefix and the bytes, if there are any bytes.
fn on_a_line(alloc: Global, front: &[u8], bytes: &[u8]) -> Result<Vec<u8>, AllocError>
    ensures { IfOk result (λ text. text.items ≡ on_a_line front.now bytes.now) }
{
    let mut text = Vec::new(alloc);
    if !bytes.is_empty() {
        text.extend_from_slice(front)?;
        text.extend_from_slice(bytes)?;
        text.push(b'\n')?;
    }
    Ok(text)
}

/// The plain output in a form, after a label.
fn in_form(
    alloc: Global,
    writing: Writing,
    label: &[u8],
    plain: &[u8],
) -> Result<Vec<u8>, AllocError>
    ensures { IfOk result (λ text. text.items ≡ in_form writing label.now plain.now) }
{
    match writing {
        Writing::Decimal | Writing::Hex | Writing::Signed => {
            lines_in(alloc, writing, label, b"\n", plain)
        }
        Writing::Text => {
            let bytes = lines_in(alloc, writing, b"", b"", plain)?;
            on_a_line(alloc, label, &bytes)
        }
    }
}

/// How many words are left without the zeros at their end.
fn words_said(words: &[u16; 8]) -> usize
    ensures count { result ≡ words_said words.now 8 }
    ensures within { result ≤ 8 }
{
    let mut count = 8;
    while count > 0 && words[count - 1] == 0 {
        count -= 1;
    }
    count
}

/// Each number in decimal, after a sign.
fn put_each(out: &mut Vec<u8>, sign: &str, numbers: &[u16]) -> Result<(), AllocError>
    ensures { OnOk result (out.new.items ≡ out.old.items ++ flat_map (λ n. sign.now ++ decimal n) numbers.now) }
{
    for number in numbers {
        put_numbered(out, sign, u64::from(*number))?;
    }
    Ok(())
}

/// The word of a commit.
fn commit_word(how: How) -> &'static str
    ensures { result.now ≡ commit_word how }
{
    match how {
        How::Update => "update",
        How::Save => "save",
        How::Revert => "revert",
    }
}

/// A call as its output is labelled.
fn call_label(alloc: Global, image: &Image, call: &Call) -> Result<Vec<u8>, AllocError>
    requires { call.now.routine < length image.now.routines }
    ensures { IfOk result (λ label. label.items ≡ label_of image.now (command.Call call.now)) }
{
    let mut label = Vec::new(alloc);
    label.extend_from_slice(image.routine(call.routine).name_text())?;
    put_each(&mut label, " ", &call.words[..words_said(&call.words)])?;
    let lent = lent_handles(&image.routine(call.routine).entry.slots, &call.handles);
    put_each(&mut label, " @", lent.as_slice())?;
    label.extend_from_slice(b": ")?;
    Ok(label)
}

/// A command as its output is labelled.
fn label_of(alloc: Global, checked: &Checked, command: &Command) -> Result<Vec<u8>, AllocError>
    requires { IsAdmitted checked.now command.now }
    ensures { IfOk result (λ label. label.items ≡ label_of checked.now command.now) }
{
    match command {
        Command::Call(call) => call_label(alloc, checked.image(), call),
        Command::Commit(how) => {
            let mut label = Vec::from_slice(alloc, commit_word(*how).as_bytes())?;
            label.extend_from_slice(b": ")?;
            Ok(label)
        }
    }
}

/// What a command prints in a form, by what it prints plainly.
pub fn shown_in(
    alloc: Global,
    form: Form,
    checked: &Checked,
    command: &Command,
    plain: &[u8],
) -> Result<Vec<u8>, AllocError>
    requires { IsAdmitted checked.now command.now }
    ensures { IfOk result (λ text. text.items ≡ shown_in form checked.now command.now plain.now) }
{
    let label = if form.label {
        label_of(alloc, checked, command)?
    } else {
        Vec::new(alloc)
    };
    in_form(alloc, form.writing, &label, plain)
}

/// The first word of a command's output, from its plain text.
pub fn first_put_out(plain: &[u8]) -> Option<u16>
    ensures { result ≡ first_put_out plain.now }
{
    if plain.is_empty() {
        return None;
    }
    let (line, _behind) = first_line(plain);
    number(line)
}
