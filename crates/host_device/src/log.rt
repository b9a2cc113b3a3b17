//! The log of the calls that the host has not performed.
ghost use Rattle.std.specs.Prelude.{List, ◌≡◌, ◌++◌, ◌∷◌, [], ◌↔◌, length, map, slice_get, All, IfOk, IsTrue, OnErr, OnOk};
ghost use Rattle.host_device.specs.Notes.{IsWithin, Note, Tells, note_in};

use crate::record::Record;
use crate::step::Step;
use std::alloc::{AllocError, Global};
use std::marker::Model;

/// How many calls a commit notes: a write of an area, a write of the selector, and a sync after each.
pub(crate) const STEPS_OF_A_COMMIT: usize = 4;

/// How many bytes the log has of the selector: the old byte and the new one.
const BYTES_OF_A_SELECTOR: usize = 2;

/// The noted calls, in order. After `clear` the log has its memory still, and uses it for later calls.
#[derive(Drop)]
pub(crate) struct Log {
    records: Vec<Record>,
    bytes: Vec<u8>,
}

impl Model for Log {
    ghost Value = { List Note };

    ghost view = { λ l. map (note_in l.bytes.items) l.records.items };

    ghost invariant = { λ l. All (IsWithin (length l.bytes.items)) l.records.items };
}

impl Log {
    /// An empty log.
    pub(crate) fn new(alloc: Global) -> Log
        ensures { result ≡ [] }
    {
        Log {
            records: Vec::new(alloc),
            bytes: Vec::new(alloc),
        }
    }

    /// Whether no call is noted.
    pub(crate) fn is_empty(&self) -> bool
        ensures { IsTrue result ↔ self.now ≡ [] }
    {
        self.records.is_empty()
    }

    /// The call with a number, from 0 on; `None` past the last one.
    pub(crate) fn step(&self, number: usize) -> Option<Step<'_>>
        ensures { Tells result (slice_get self.now number) }
    {
        match self.records.get(number) {
            Some(Record::Write(at, from, len)) => {
                let given = *from + *len;
                Some(Step::Write(*at, &self.bytes[given..given + *len]))
            }
            Some(Record::Sync) => Some(Step::Sync),
            None => None,
        }
    }

    /// Whether it has memory for so many more bytes and steps. No clause: a log's value is its list of notes, without its capacity.
    pub(crate) fn has_room(&self, bytes: usize, steps: usize) -> bool {
        bytes <= self.bytes.capacity() - self.bytes.len()
            && steps <= self.records.capacity() - self.records.len()
    }

    /// Gets memory for so many more bytes and steps. `AllocError` if the allocator refuses. No clause says when it refuses: the kit has no
    /// predicate for a refusal of the allocator.
    pub(crate) fn reserve(&mut self, bytes: usize, steps: usize) -> Result<(), AllocError>
        ensures { self.new ≡ self.old }
    {
        self.bytes.reserve_exact(bytes)?;
        self.records.reserve_exact(steps)
    }

    /// Notes a write: the bytes at that place before it, and the new ones. If memory is missing, it first gets the memory for the rest of the
    /// commit too, so that the allocator refuses the first write or none. `AllocError` if it refuses: then nothing is noted.
    pub(crate) fn note_write(
        &mut self,
        at: u64,
        stood: &[u8],
        given: &[u8],
    ) -> Result<(), AllocError>
        requires { length stood.now ≡ length given.now }
        ensures noted { OnOk result (self.new ≡ self.old ++ (Note.Write at stood.now given.now ∷ [])) }
        ensures still { OnErr result (self.new ≡ self.old) }
    {
        let bytes = stood.len() + given.len();
        if !self.has_room(bytes, 1) {
            let with_selector = bytes.saturating_add(BYTES_OF_A_SELECTOR);
            self.reserve(with_selector, STEPS_OF_A_COMMIT)?;
        }
        let from = self.bytes.len();
        self.bytes.extend_from_slice(stood)?;
        self.bytes.extend_from_slice(given)?;
        self.records.push(Record::Write(at, from, given.len()))?;
        Ok(())
    }

    /// Notes a sync. `AllocError` if the allocator refuses: then nothing is noted.
    pub(crate) fn note_sync(&mut self) -> Result<(), AllocError>
        ensures noted { OnOk result (self.new ≡ self.old ++ (Note.Sync ∷ [])) }
        ensures still { OnErr result (self.new ≡ self.old) }
    {
        self.records.push(Record::Sync)?;
        Ok(())
    }

    /// Forgets all calls.
    pub(crate) fn clear(&mut self)
        ensures { self.new ≡ [] }
    {
        self.records.clear();
        self.bytes.clear();
    }
}
