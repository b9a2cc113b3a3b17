//! Lines are answered one after another.

use crate::ask::{ask, is_typed};
use crate::explained::{known, lines_of};
use crate::fault::PromptFault;
use crate::record::Record;
use crate::reply::{Reply, Stop, wrong};
use crate::session::Session;
use crate::shown::view_of;
use crate::verbs::{Verb, asked_by, handle_of, limit_of, words_of};
use geos_shell::print;
use geos_text::{first_line, first_word, without_comment};
use geos_topics::topic_of;
use std::alloc::Global;
use std::io::BufReader;

/// What `help` prints.
const HELP: &str = "\
call add 2 3         a command of a script: call, update, save or revert, also with -> and $
undo                 takes back the last command; commands before a commit stay
dump [H [C]]         prints the blocks as geos dump would after update
map                  draws them as geos map would
explain [NAME]       prints what is known at each instruction, or only at those of the routine
trace NAME n.. @h..  prints the steps of a call, which changes nothing
help [TOPIC]         prints this list, or what geos help says of DEREF, V4, refused 4 or why 2
quit                 ends the session, as the end of the input does
";

/// The reply with this text. `None` if there is no memory.
fn copied(alloc: Global, text: &[u8]) -> Option<Reply> {
    match Vec::from_slice(alloc, text) {
        Ok(text) => Some(Reply::Text(text)),
        Err(_) => None,
    }
}

/// What there is to say on the topic that the words after `help` name. `None` if there is no memory.
fn help(alloc: Global, words: &[String]) -> Option<Reply> {
    if words.len() <= 1 {
        return copied(alloc, HELP.as_bytes());
    }
    match topic_of(alloc, words) {
        Ok(Some(text)) => Some(Reply::Text(text.into_bytes())),
        Ok(None) => wrong(
            alloc,
            "there is no such topic; others are DEREF, V4, refused 4 and why 2",
        ),
        Err(_) => None,
    }
}

impl Record<'_, '_> {
    /// The blocks of the VM file, a block of it, or a chunk of this. `None` if there is no memory.
    fn dump(&self, alloc: Global, words: &[String], fault: &str) -> Option<Reply> {
        let (Some(block), Some(chunk)) = (handle_of(words.get(1)), handle_of(words.get(2))) else {
            return wrong(alloc, fault);
        };
        let text = self.picture(alloc, Some(view_of(block, chunk)))?;
        if text.is_empty() {
            return wrong(alloc, "there is no such block or chunk: dump lists them");
        }
        Some(Reply::Text(text))
    }

    /// What is known of a routine, or of all. `None` if there is no memory.
    fn explain(&self, rt: &HostRuntime, name: Option<&String>) -> Option<Reply> {
        let text = known(rt, self.routines)?;
        let Some(name) = name else {
            return Some(Reply::Text(text));
        };
        let lines = lines_of(&text, name.as_bytes());
        if lines.is_empty() {
            return wrong(
                rt.alloc(),
                "there is no routine of that name: explain lists them",
            );
        }
        copied(rt.alloc(), lines)
    }
}

impl<'a> Session<'_, 'a> {
    /// What becomes of a line without its comment. `None` if there is no memory.
    fn reply(&mut self, rt: &HostRuntime, line: &[u8]) -> Option<Reply> {
        let alloc = rt.alloc();
        let Some((first, rest)) = first_word(line) else {
            return Some(Reply::Text(Vec::new(alloc)));
        };
        let Ok(text) = std::str::from_utf8(line) else {
            return wrong(alloc, "the line is no text: it is not UTF-8");
        };
        let Some(verb) = asked_by(first) else {
            return self.command(alloc, line);
        };
        let words = words_of(alloc, text)?;
        let (most, fault) = limit_of(verb);
        if words.len() > most {
            return wrong(alloc, fault);
        }
        match verb {
            Verb::Quit => Some(Reply::Quit),
            Verb::Undo => self.undo(alloc),
            Verb::Dump => self.record.dump(alloc, &words, fault),
            Verb::Map => Some(Reply::Text(self.record.picture(alloc, None)?)),
            Verb::Explain => self.record.explain(rt, words.get(1)),
            Verb::Trace => self.record.trace(alloc, rest),
            Verb::Help => help(alloc, &words),
        }
    }

    /// Answers a line. Whether another one may follow.
    fn answer(&mut self, rt: &HostRuntime, line: &[u8]) -> Result<bool, PromptFault<'a>> {
        let (line, _) = first_line(line);
        match self.reply(rt, without_comment(line)) {
            Some(Reply::Text(text)) => self.voice.print(rt, &text)?,
            Some(Reply::Wrong(sentence)) => self.voice.blame(rt, &sentence)?,
            Some(Reply::Quit) => return Ok(false),
            Some(Reply::Stop(stop)) => return Err(self.place.fault_of(stop)),
            None => return Err(self.place.fault_of(Stop::Memory)),
        }
        Ok(true)
    }

    /// Carries out the lines of a journal, and prints nothing.
    pub(crate) fn resume(&mut self, rt: &HostRuntime, lines: &[u8]) -> Result<(), PromptFault<'a>> {
        let mut rest = lines;
        // A line has at least one byte, so this is enough for all lines.
        for _ in 0..lines.len() {
            if rest.is_empty() {
                break;
            }
            let (line, behind) = first_line(rest);
            rest = behind;
            self.answer(rt, line)?;
        }
        Ok(())
    }

    /// Answers the lines of the standard input up to its end, or to `quit`.
    pub(crate) fn go_on(&mut self, rt: &HostRuntime) -> Result<(), PromptFault<'a>> {
        let Ok(mut input) = BufReader::new(rt.alloc(), rt.stdin()) else {
            return Err(self.place.fault_of(Stop::Memory));
        };
        for _ in 0..u64::MAX {
            let line = ask(rt, &mut input)?;
            if line.is_empty() {
                break;
            }
            self.voice.number = self.voice.number.saturating_add(1);
            if !self.answer(rt, &line)? {
                return Ok(());
            }
        }
        if is_typed(rt) {
            print(rt, b"\n")?;
        }
        Ok(())
    }
}
