//! The tests of a source, as scripts.

use crate::declarations::{Declared, Kind};
use sentence_text::Text;
use std::alloc::Global;
use tkv_syntax::{Fault, Item, ItemKind, NONE, TestKind, TestPart, Why};

/// A test of a source, as a script.
#[derive(Drop)]
pub struct SourceTest {
    /// The offsets of its name: the first one, and the one after it.
    pub from: u32,
    pub to: u32,
    /// A line for each call, as `call add 2 3 => 5`.
    pub script: Text,
    /// Where the source has each call.
    pub places: Vec<u32>,
}

impl SourceTest {
    /// A test without calls.
    fn new(alloc: Global, begin: &TestPart) -> SourceTest {
        SourceTest {
            from: begin.at,
            to: begin.a,
            script: Text::new(alloc),
            places: Vec::new(alloc),
        }
    }

    /// Begins the line of a call.
    fn begin_call(&mut self, name: &[u8], at: u32) {
        self.script.put("call ");
        for byte in name {
            if *byte != 0 {
                self.script.put_bytes(&[*byte]);
            }
        }
        let kept = self.places.push(at).is_ok();
        self.script.failed = self.script.failed || !kept;
    }
}

/// A call of a test: the index of the item of its routine, how many parameters that has, and the index of the call's part.
#[derive(Clone, Copy)]
struct Called {
    routine: usize,
    count: u32,
    part: usize,
}

impl Declared {
    /// The call that a part is, if it is one of a public routine.
    fn called(&self, part: usize, at: u32) -> Result<Called, Fault> {
        if let Some(global) = self.find(&self.name(at))
            && matches!(global.kind, Kind::Routine)
            && let Some(item) = self.item(global.item)
            && item.a % 2 == 1
        {
            return Ok(Called {
                routine: global.item,
                count: item.b,
                part,
            });
        }
        Err(Fault::new(Why::Untestable, at))
    }

    /// How many arguments follow a part.
    fn count_arguments(&self, part: usize) -> usize {
        let mut count: usize = 0;
        for _ in 0..self.source.tests.len() {
            match self.argument(part, count) {
                Some(_) => count = count.saturating_add(1),
                None => break,
            }
        }
        count
    }

    /// An argument of the call that a part is, if the call has so many.
    fn argument(&self, part: usize, k: usize) -> Option<TestPart> {
        let index = part.saturating_add(k).saturating_add(1);
        let found = self.source.tests.get(index).copied()?;
        if matches!(found.kind, TestKind::Argument) {
            Some(found)
        } else {
            None
        }
    }

    /// Writes the argument for a parameter, if that is a block or not.
    fn put_argument(
        &self,
        script: &mut Text,
        parameter: &Item,
        argument: &TestPart,
        blocks: bool,
    ) -> Result<(), Fault> {
        let value = self.constant(argument.a)?;
        if matches!(parameter.kind, ItemKind::BlockParam) != blocks {
            return Ok(());
        }
        if !blocks && parameter.b != NONE {
            let most = self.constant(parameter.b)?;
            if value > most {
                return Err(Fault {
                    other: parameter.at,
                    number: most,
                    ..Fault::new(Why::PastBound, argument.at)
                });
            }
        }
        script.put_number(if blocks { " @" } else { " " }, u64::from(value));
        Ok(())
    }

    /// Writes the arguments of the call that a part is: first those that are words, or those that are blocks.
    fn put_arguments(&self, script: &mut Text, call: &Called, blocks: bool) -> Result<(), Fault> {
        for k in 0..call.count.min(255) as usize {
            let index = call.routine.saturating_add(k).saturating_add(1);
            let given = self.argument(call.part, k);
            if let (Some(parameter), Some(argument)) = (self.item(index), given) {
                self.put_argument(script, &parameter, &argument, blocks)?;
            }
        }
        Ok(())
    }

    /// Writes the call that a part is.
    fn put_call(&self, test: &mut SourceTest, part: usize, at: u32) -> Result<(), Fault> {
        let call = self.called(part, at)?;
        if self.count_arguments(part) != call.count as usize {
            return Err(Fault {
                number: call.count.min(255) as u16,
                ..Fault::new(Why::Arguments, at)
            });
        }
        if !test.places.is_empty() {
            test.script.put("\n");
        }
        test.begin_call(&self.name(at), at);
        self.put_arguments(&mut test.script, &call, false)?;
        self.put_arguments(&mut test.script, &call, true)
    }

    /// Writes a part of a test.
    fn put_part(&self, test: &mut SourceTest, index: usize, part: &TestPart) -> Result<(), Fault> {
        match part.kind {
            TestKind::Call => return self.put_call(test, index, part.at),
            TestKind::Prints => test.script.put(" =>"),
            TestKind::Refused => {
                let number = self.constant(part.a)?;
                test.script.put_number(" refused ", u64::from(number));
            }
            TestKind::Printed => {
                let word = self.constant(part.a)?;
                test.script.put_number(" ", u64::from(word));
            }
            TestKind::Begin | TestKind::Argument => {}
        }
        Ok(())
    }

    /// The tests of the source, in order. A fault if one calls no public routine of the source, or not with its number of constants, each within the
    /// bound of its word.
    pub fn tests(&self, alloc: Global) -> Result<Vec<SourceTest>, Fault> {
        let mut tests: Vec<SourceTest> = Vec::new(alloc);
        for index in 0..self.source.tests.len() {
            let part = self.source.tests[index];
            if matches!(part.kind, TestKind::Begin) {
                tests.push(SourceTest::new(alloc, &part))?;
            } else if let Some(test) = tests.last_mut() {
                self.put_part(test, index, &part)?;
            }
        }
        Ok(tests)
    }
}
