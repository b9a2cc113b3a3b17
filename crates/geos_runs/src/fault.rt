//! Why something was not run.

use array_rows::RowFault;
use geos_cli::ScriptFault;
use geos_files::FileFault;
use geos_shell::{Diagnosed, Named, StreamFault};
use std::alloc::Global;
use std::error::Error;
use std::fmt::{self, Display, Formatter};

/// Why a session, a script, a call or a trace was not run, or a chunk was not written or read.
#[derive(Drop)]
pub enum RunFault<'a> {
    /// What a path names was not read or written.
    Stream(StreamFault<'a>),
    /// The VM file was not opened.
    File(FileFault<'a>),
    /// A session, or a script, has a fault.
    Session(ScriptFault),
    /// Lines of a script are bad: the first one, and diagnostics on them.
    BadLines(ScriptFault, Vec<u8>),
    /// The line of a script that runs strictly, counted from 1, is a command that was refused.
    Refused(usize, u16),
    /// So many lines of a script printed what they say, and so many something else.
    Failed(usize, usize),
    /// A test is required, and there is none.
    NoTests,
    /// A call of the kernel on a chunk was refused, or a block that a routine borrows.
    NotDone(u16),
    /// The chunk, or the item, of this block is no array.
    NoArray(u16, u16),
    /// The elements of an array have so many bytes, and the requested fields have so many.
    OtherSize(usize, usize),
    /// The sizes of elements of an array vary, and fields are requested.
    Varying,
    /// A row of the file with the path is wrong.
    BadRow(&'a str, usize, RowFault),
    /// The file with the path has too many rows.
    LongRows(&'a str),
    /// No public routine has the name that a call gives.
    NoRoutine(&'a str),
    /// No routine has the name whose steps are requested.
    NoSuchRoutine(&'a str),
    /// The routine has no instruction at the line, or with the label, whose steps are requested.
    NoLine(&'a str, &'a str),
    /// What a call gives as this word is no number that the word may be.
    BadNumber(usize, &'a str),
    /// A call of a routine that borrows so many blocks gives so many.
    BadBlocks(&'a str, usize, usize),
    /// What a call gives in place of a block is none.
    BadBlock(&'a str),
    /// A call gives a ninth number.
    TooManyNumbers,
}

/// What follows words of a message.
#[derive(Clone, Copy)]
enum Item<'a> {
    Nothing,
    Number(usize),
    /// A path, a name or a number of the user's.
    Name(&'a str),
}

/// The items of a message with one.
fn one<'a>(item: Item<'a>) -> [Item<'a>; 3] {
    [item, Item::Nothing, Item::Nothing]
}

/// The items of a message with two.
fn two<'a>(one: Item<'a>, other: Item<'a>) -> [Item<'a>; 3] {
    [one, other, Item::Nothing]
}

impl<'a> RunFault<'a> {
    /// The words of the message before its items. None if a part of the fault has the message.
    fn first_words(&self) -> &'static str {
        match self {
            RunFault::Refused(_, _) => "line ",
            RunFault::NoTests => "no tests: give a SCRIPT, or write a test into a source",
            RunFault::NotDone(_) => "refused ",
            RunFault::NoArray(_, _) => "no array: chunk ",
            RunFault::OtherSize(_, _) => "elements of ",
            RunFault::Varying => "elements of varying sizes: omit '--fields'",
            RunFault::NoRoutine(_) => "bad call: no public routine ",
            RunFault::NoSuchRoutine(_) => "no routine ",
            RunFault::NoLine(_, _) => "routine ",
            RunFault::BadNumber(_, _) => "bad call: w",
            RunFault::BadBlocks(_, _, _) => "bad call: ",
            RunFault::BadBlock(_) => "bad call: a block can't be ",
            RunFault::TooManyNumbers => "bad call: more than eight numbers",
            _ => "",
        }
    }

    /// The words before its second item.
    fn second_words(&self) -> &'static str {
        match self {
            RunFault::Refused(_, _) => ": refused ",
            RunFault::Failed(_, _) => " passed, ",
            RunFault::NoArray(_, _) => " of ",
            RunFault::OtherSize(_, _) => " bytes, and the fields have ",
            RunFault::BadRow(_, _, _) => ":",
            RunFault::NoLine(_, _) => " has no instruction at ",
            RunFault::BadNumber(_, _) => " can't be ",
            RunFault::BadBlocks(_, _, _) => " borrows blocks: ",
            _ => "",
        }
    }

    /// The words before its third item.
    fn third_words(&self) -> &'static str {
        match self {
            RunFault::BadBlocks(_, _, _) => ", and the call has ",
            _ => "",
        }
    }

    /// The items of the message.
    fn items(&self) -> [Item<'a>; 3] {
        match self {
            RunFault::Refused(line, refusal) => {
                two(Item::Number(*line), Item::Number(usize::from(*refusal)))
            }
            RunFault::NoArray(block, chunk) => two(
                Item::Number(usize::from(*chunk)),
                Item::Number(usize::from(*block)),
            ),
            RunFault::Failed(one, other) | RunFault::OtherSize(one, other) => {
                two(Item::Number(*one), Item::Number(*other))
            }
            RunFault::NotDone(refusal) => one(Item::Number(usize::from(*refusal))),
            RunFault::BadRow(path, row, _) => two(Item::Name(*path), Item::Number(*row)),
            RunFault::LongRows(name)
            | RunFault::NoRoutine(name)
            | RunFault::NoSuchRoutine(name)
            | RunFault::BadBlock(name) => one(Item::Name(*name)),
            RunFault::NoLine(routine, line) => two(Item::Name(*routine), Item::Name(*line)),
            RunFault::BadNumber(word, number) => two(Item::Number(*word), Item::Name(*number)),
            RunFault::BadBlocks(name, borrowed, given) => [
                Item::Name(*name),
                Item::Number(*borrowed),
                Item::Number(*given),
            ],
            _ => one(Item::Nothing),
        }
    }

    /// The words of the message after its items.
    fn last_words(&self) -> &'static str {
        match self {
            RunFault::Failed(_, _) => " failed",
            RunFault::BadRow(_, _, _) => ": ",
            RunFault::LongRows(_) => ": more than 1048576 bytes",
            RunFault::NoLine(_, _) => ": trace without '--break' shows lines and labels",
            RunFault::BadBlocks(_, _, _) => ", each as @ and its handle after the numbers",
            RunFault::BadBlock(_) => ": it is @ and a handle up to 65535",
            _ => "",
        }
    }
}

impl Display for RunFault<'_> {
    fn fmt<W: fmt::Write>(&self, f: &mut Formatter<W>) -> fmt::Result {
        let words = [self.first_words(), self.second_words(), self.third_words()];
        let items = self.items();
        for n in 0..3 {
            f.write_str(words[n])?;
            match items[n] {
                Item::Nothing => {}
                Item::Number(number) => number.fmt(f)?,
                Item::Name(name) => Named(name).fmt(f)?,
            }
        }
        f.write_str(self.last_words())?;
        match self {
            RunFault::Stream(fault) => fault.fmt(f),
            RunFault::File(fault) => fault.fmt(f),
            RunFault::Session(fault) | RunFault::BadLines(fault, _) => fault.fmt(f),
            RunFault::BadRow(_, _, fault) => fault.fmt(f),
            _ => Ok(()),
        }
    }
}

impl fmt::Debug for RunFault<'_> {
    fn fmt<W: fmt::Write>(&self, f: &mut Formatter<W>) -> fmt::Result {
        Display::fmt(self, f)
    }
}

impl Error for RunFault<'_> {}

impl Diagnosed for RunFault<'_> {
    fn diagnostics(&self, alloc: Global) -> Vec<u8> {
        match self {
            RunFault::Stream(fault) => fault.diagnostics(alloc),
            RunFault::File(fault) => fault.diagnostics(alloc),
            RunFault::BadLines(_, told) => match Vec::from_slice(alloc, told) {
                Ok(told) => told,
                Err(_) => Vec::new(alloc),
            },
            _ => Vec::new(alloc),
        }
    }
}
