//! Sets of effects.

ghost use Rattle.std.specs.Prelude.{◌≡◌, ◌||◌, false, slice_index_or, length};
ghost use Rattle.geos_verify.specs.Lists.{zip2};
ghost use Rattle.geos_grants.specs.Sets.{has, no_effects, all_effects, united};

use crate::effect::Effect;

/// A set of effects.
#[derive(Clone, Copy)]
pub struct Effects {
    /// `Effect::Output`.
    pub output: bool,
    /// `Effect::ReadsLent`, for the slots s0 to s3.
    pub reads_lent: [bool; 4],
    /// `Effect::ChangesLent`, for the slots s0 to s3.
    pub changes_lent: [bool; 4],
    /// `Effect::Memory`.
    pub memory: bool,
    /// `Effect::LocksByHandle`.
    pub locks_by_handle: bool,
    /// `Effect::ReadsFile`.
    pub reads_file: bool,
    /// `Effect::ChangesFile`.
    pub changes_file: bool,
    /// `Effect::Map`.
    pub map: bool,
    /// `Effect::Commits`.
    pub commits: bool,
}

/// The flag of a slot; there are four.
fn flag_at(flags: &[bool; 4], slot: u8) -> bool
    ensures { result ≡ slice_index_or flags.now slot false }
{
    match flags.get(usize::from(slot)) {
        Some(flag) => *flag,
        None => false,
    }
}

/// The flags that one of the two has.
fn either(flags: &[bool; 4], others: &[bool; 4]) -> [bool; 4]
    ensures { result ≡ zip2 ◌||◌ flags.now others.now }
{
    let [a, b, c, d] = *flags;
    let [p, q, r, s] = *others;
    [a || p, b || q, c || r, d || s]
}

/// Whether at least one of the two is true.
fn one_of(flag: bool, other: bool) -> bool
    ensures { result ≡ (flag || other) }
{
    flag || other
}

/// Lemma: a set has flags for four slots.
fn have_four(flags: &[bool; 4])
    ensures { length flags.now ≡ 4 }
{}

impl Effects {
    /// No effect.
    pub fn none() -> Effects
        ensures { result ≡ no_effects }
    {
        Effects {
            output: false,
            reads_lent: [false; 4],
            changes_lent: [false; 4],
            memory: false,
            locks_by_handle: false,
            reads_file: false,
            changes_file: false,
            map: false,
            commits: false,
        }
    }

    /// Every effect.
    pub fn all() -> Effects
        ensures { result ≡ all_effects }
    {
        Effects {
            output: true,
            reads_lent: [true; 4],
            changes_lent: [true; 4],
            memory: true,
            locks_by_handle: true,
            reads_file: true,
            changes_file: true,
            map: true,
            commits: true,
        }
    }

    /// Whether the set has the effect; it has none of a slot that there is not.
    pub fn has(&self, effect: Effect) -> bool
        ensures { result ≡ has self.now effect }
    {
        match effect {
            Effect::Output => self.output,
            Effect::ReadsLent(slot) => flag_at(&self.reads_lent, slot),
            Effect::ChangesLent(slot) => flag_at(&self.changes_lent, slot),
            Effect::Memory => self.memory,
            Effect::LocksByHandle => self.locks_by_handle,
            Effect::ReadsFile => self.reads_file,
            Effect::ChangesFile => self.changes_file,
            Effect::Map => self.map,
            Effect::Commits => self.commits,
        }
    }

    /// The effects that one of the two sets has.
    pub fn or(&self, other: &Effects) -> Effects
        ensures value { result ≡ united self.now other.now }
        ensures each { (effect : Effect) → has result effect ≡ (has self.now effect || has other.now effect) }
    {
        have_four(&self.reads_lent);
        have_four(&other.reads_lent);
        have_four(&self.changes_lent);
        have_four(&other.changes_lent);
        Effects {
            output: one_of(self.output, other.output),
            reads_lent: either(&self.reads_lent, &other.reads_lent),
            changes_lent: either(&self.changes_lent, &other.changes_lent),
            memory: one_of(self.memory, other.memory),
            locks_by_handle: one_of(self.locks_by_handle, other.locks_by_handle),
            reads_file: one_of(self.reads_file, other.reads_file),
            changes_file: one_of(self.changes_file, other.changes_file),
            map: one_of(self.map, other.map),
            commits: one_of(self.commits, other.commits),
        }
    }
}
