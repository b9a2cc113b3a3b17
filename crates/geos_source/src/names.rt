//! Names, labels, and what they stand for.

ghost use Rattle.std.specs.Prelude.{◌≡◌, true, IfOk, vec_len};
ghost use Rattle.geos_source.specs.declared.names.TheConstants.{TREES};
ghost use Rattle.geos_source.specs.Names.{is_name, name_of, label_of, resolved, with_name, none_defined};
ghost use Rattle.geos_source.specs.Keys.{key_of, is_keyed};

use crate::fault::Why;
use geos_image::are_name_bytes;
use std::alloc::{AllocError, Global};
use std::collections::BTreeMap;

/// A name as an image has it: 1 to 16 letters, digits and underscores, the first a letter; then
/// zeros.
pub type Name = [u8; 16];

fn is_name(word: &[u8]) -> bool
    ensures { result ≡ is_name word.now }
{
    match word.first() {
        None => false,
        Some(first) => word.len() <= 16 && first.is_ascii_alphabetic() && are_name_bytes(word),
    }
}

/// The name that a word writes; `None` if it writes none.
#[tactic(auto, unfolding(crate::specs::Names::name_of))]
pub fn name_of(word: &[u8]) -> Option<Name>
    ensures { result ≡ name_of word.now }
{
    if !is_name(word) {
        return None;
    }
    let mut name = [0; 16];
    name[..word.len()].copy_from_slice(word);
    Some(name)
}

/// The name of a label, which a `:` follows; `None` if the word is no label.
#[tactic(auto, unfolding(crate::specs::Names::label_of))]
pub fn label_of(word: &[u8]) -> Option<Name>
    ensures { result ≡ label_of word.now }
{
    match word.split_last() {
        Some((b':', front)) => name_of(front),
        _ => None,
    }
}

/// The key of a name, which each name has: the number whose bytes are the name, the lowest first.
/// Numbers are compared at once, names byte by byte. The first byte is the lowest, so that names
/// that come in rising order are spread over a tree of keys, and do not all go to its end.
fn key_of(name: Name) -> u128
    ensures key { result ≡ key_of name }
    ensures name { is_keyed name ≡ true }
{
    u128::from_le_bytes(name)
}

/// How many trees a table has. This divides 2^64 - 1, so that a compiler finds the remainder of a key
/// by adding up its halves, with no long division.
const TREES: u128 = 641;

/// What names stand for, by their keys, which are numbers and so compared at once. A name is in the tree whose number
/// is the remainder of its key by `TREES`, so each tree has a handful of names. An author may choose names that all
/// belong to one tree. This tree is balanced, so a look-up then takes no longer than in a single tree of all names.
#[derive(Drop)]
pub(crate) struct Table {
    trees: Vec<BTreeMap<u128, u16>>,
    ghost all_trees: { vec_len trees ≡ TREES },
}

impl Table {
    ghost use Rattle.geos_source.specs.Tables.{table_of};

    /// No name is defined.
    pub(crate) fn new(alloc: Global) -> Result<Table, AllocError>
        ensures { IfOk result (λ table. table_of table ≡ none_defined) }
    {
        let mut trees = Vec::with_capacity(alloc, TREES as usize)?;
        for _ in 0..TREES as usize {
            trees.push_reserved(BTreeMap::new(alloc));
        }
        Ok(Table { trees })
    }

    pub(crate) fn get(&self, name: &Name) -> Option<u16>
        ensures { result ≡ table_of self.now name.now }
    {
        let key = key_of(*name);
        self.trees[(key % TREES) as usize].get(&key).copied()
    }

    /// Defines one more name; where it was defined before, answers what it stood for.
    pub(crate) fn insert(&mut self, name: Name, value: u16) -> Result<Option<u16>, AllocError>
        ensures old { IfOk result (λ old. old ≡ table_of self.old name) }
        ensures new { IfOk result (λ _. table_of self.new ≡ with_name (table_of self.old) name value) }
    {
        let key = key_of(name);
        match self.trees[(key % TREES) as usize].insert(key, value) {
            Ok(old) => Ok(old),
            Err(_) => Err(AllocError),
        }
    }

    /// What the name that a word writes stands for. `WrongOperands` if the word is no name,
    /// `Undefined` if the name is not defined.
    pub(crate) fn resolve(&self, word: &[u8]) -> Result<u16, Why>
        ensures { result ≡ resolved (table_of self.now) word.now }
    {
        match name_of(word) {
            None => Err(Why::WrongOperands),
            Some(name) => match self.get(&name) {
                None => Err(Why::Undefined),
                Some(value) => Ok(value),
            },
        }
    }
}
