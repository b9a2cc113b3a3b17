//! Tables by pc.

ghost use Rattle.std.specs.Prelude.{◌≡◌, ◌<◌, ◌≤◌, ◌+◌, ◌-◌, ◌++◌, ℕ, length, replicate, slice_index_or, slice_set, IfOk};
ghost use Rattle.std.specs.Vec.{vec_len, vec_capacity};

use crate::legal::MOST_INSTRS;
use std::alloc::{AllocError, Global};
use std::marker::Model;

/// An item for each pc that there may be in an image. Room is there for all of them, but memory is written only up to the highest pc
/// at which an item was set: tables of short images, and those that nothing is set in, take next to no time.
#[derive(Drop)]
pub struct Table<T: Copy> {
    items: Vec<T>,
    /// The item at each pc after those.
    rest: T,
}

impl<T: Copy> Model for Table<T> {
    ghost use Rattle.std.specs.Prelude.{◌≡◌, ◌≤◌, ◌-◌, ◌++◌, List, length, replicate};
    ghost use Rattle.std.specs.Vec.{vec_capacity};

    ghost Value = { List T };

    ghost view = { λ t. t.items.items ++ replicate (4096 - length t.items.items) t.rest };

    ghost invariant = { λ t. record { few : length t.items.items ≤ 4096; room : 4096 ≤ vec_capacity t.items } };
}

/// Puts an item after others until there are as many as there are pcs before one. There is room for them.
#[inline(never)]
fn reach<T: Copy>(items: &mut Vec<T>, pc: u16, rest: T)
    requires few { vec_len items.old ≤ pc }
    requires room { pc ≤ vec_capacity items.old }
    ensures items { items.new.items ≡ items.old.items ++ replicate (pc - vec_len items.old) rest }
    ensures room { vec_capacity items.new ≡ vec_capacity items.old }
{
    for _ in items.len()..pc as usize {
        items.push_reserved(rest);
    }
}

impl<T: Copy> Table<T> {
    /// A table that has the same item everywhere.
    pub fn new(alloc: Global, item: T) -> Result<Table<T>, AllocError>
        ensures { IfOk result (λ table. (pc : ℕ) → slice_index_or table pc item ≡ item) }
    {
        let items = Vec::with_capacity(alloc, MOST_INSTRS as usize)?;
        Ok(Table { items, rest: item })
    }

    /// Lemma: there is room for each pc that there may be.
    pub fn lengths(&self)
        ensures { length self.now ≡ 4096 }
    {
        // Reading a field makes its invariant known.
        let _items = &self.items;
    }

    /// The item at a pc.
    pub fn at(&self, pc: u16) -> T
        requires { pc < 4096 }
        ensures { (other : T) → result ≡ slice_index_or self.now pc other }
    {
        *self.get(pc)
    }

    /// A reference to the item at a pc, for large items of which the caller needs only a part.
    pub fn get(&self, pc: u16) -> &T
        requires { pc < 4096 }
        ensures { (other : T) → result.now ≡ slice_index_or self.now pc other }
    {
        match self.items.get(pc as usize) {
            Some(item) => item,
            None => &self.rest,
        }
    }

    /// Sets the item at a pc.
    pub fn set(&mut self, pc: u16, item: T)
        requires { pc < 4096 }
        ensures { self.new ≡ slice_set self.old pc item }
    {
        let at = pc as usize;
        if self.items.len() < at {
            reach(&mut self.items, pc, self.rest);
        }
        if at < self.items.len() {
            self.items[at] = item;
        } else {
            self.items.push_reserved(item);
        }
    }

    /// The same item at each pc from one on: none of them is written.
    pub fn fill_from(&mut self, low: u16, item: T)
        requires { low < 4096 }
        ensures same { (pc : ℕ) (other : T) → low ≤ pc → pc < 4096 → slice_index_or self.new pc other ≡ item }
        ensures stays { (pc : ℕ) (other : T) → pc < low → slice_index_or self.new pc other ≡ slice_index_or self.old pc other }
    {
        if self.items.len() < low as usize {
            reach(&mut self.items, low, self.rest);
        }
        self.items.truncate(low as usize);
        self.rest = item;
    }
}

/// Two tables, each of which has one item everywhere.
pub fn two_tables<T: Copy, U: Copy>(
    alloc: Global,
    one: T,
    other: U,
) -> Result<(Table<T>, Table<U>), AllocError>
    ensures one { IfOk result (λ both. (pc : ℕ) → slice_index_or both.0 pc one ≡ one) }
    ensures other { IfOk result (λ both. (pc : ℕ) → slice_index_or both.1 pc other ≡ other) }
{
    let first = Table::new(alloc, one)?;
    let second = Table::new(alloc, other)?;
    Ok((first, second))
}
