//! Causes for which no rows or no numbers of steps are found for a routine.

use crate::apart::Apart;
use crate::back_way::BackWay;

/// What is wrong at a place of a loop that a LOOP closes.
#[derive(Clone, Copy)]
pub struct Within {
    /// LOOP's way to its target.
    pub back: BackWay,
    /// The counter that it takes from.
    pub counter: u8,
    /// The pc of the place.
    pub at: u16,
}

/// A LOOP with its counter.
#[derive(Clone, Copy)]
pub struct LoopOn {
    /// LOOP's way to its target.
    pub back: BackWay,
    /// The counter that it takes from.
    pub counter: u8,
}

/// Two loops that wait on each other.
#[derive(Clone, Copy)]
pub struct LoopPair {
    /// The way of a LOOP to its target.
    pub back: BackWay,
    /// The counter that it takes from.
    pub counter: u8,
    /// The pc in its loop where the other's counter is set.
    pub at: u16,
    /// The way of the other LOOP to its target.
    pub other: BackWay,
    /// The counter that it takes from.
    pub other_counter: u8,
    /// The pc in its loop where the first one's counter is set.
    pub other_at: u16,
}

/// Two of the loops in a ring that wait each on the next, one after the other.
#[derive(Clone, Copy)]
pub struct LoopRing {
    /// The way of the first LOOP to its target.
    pub back: BackWay,
    /// The counter that it takes from.
    pub counter: u8,
    /// The pc in its loop where the next one's counter is set.
    pub at: u16,
    /// The way of the next LOOP to its target.
    pub next: BackWay,
    /// The counter that it takes from.
    pub next_counter: u8,
    /// The pc in its loop where the counter of the one after it is set.
    pub next_at: u16,
    /// The counter that this one takes from.
    pub third_counter: u8,
}

/// Where a counter is set to a word.
#[derive(Clone, Copy)]
pub struct ByWord {
    /// The pc of the instruction.
    pub at: u16,
    pub counter: u8,
    pub word: u8,
    /// How much the word is there at most, by what is known of it.
    pub most: u16,
}

/// Where a counter is set to a number.
#[derive(Clone, Copy)]
pub struct ByNumber {
    /// The pc of the instruction.
    pub at: u16,
    pub counter: u8,
    pub number: u16,
}

/// Why no rows or no numbers of steps are found for a routine.
#[derive(Clone, Copy)]
pub enum Cause {
    /// Ways of control meet, and slots differ in more than marks.
    SlotsDiffer(Apart),
    /// A back edge is on a cycle that nothing pays for.
    NoLoop(BackWay),
    /// The counter of a loop is set within it.
    SetWithin(Within),
    /// The counter of a loop is set within it, though not with what it was at the loop's head.
    SetAgain(Within),
    /// A routine that is called within the loop of a counter touches it.
    TouchedWithin(Within),
    /// A routine that is called before the loop of a counter touches it, and it is not set after that.
    TouchedBefore(Within),
    /// On a way to a LOOP nothing sets its counter.
    NotSet(LoopOn),
    /// Two loops set the counters of each other.
    InTurn(LoopPair),
    /// Loops set the counters of each other in a ring.
    InRing(LoopRing),
    /// On some way more steps are taken than a potential can say.
    StepsPass,
    /// On some way more steps are taken than a potential can say, if words are as much as they may be; and a counter is set for a loop to a
    /// word of which too little is known.
    WordUnbounded(ByWord),
    /// The same, and a counter is set to a number for a loop.
    NumberHigh(ByNumber),
    /// No steps that a potential can say were found, and a counter is set for a loop to a word of which too little is known.
    WordDear(ByWord),
    /// The same, and a counter is set to a number for a loop.
    NumberDear(ByNumber),
    /// The search for numbers of steps was given up, as it took too long.
    GivenUp(BackWay),
    /// There is no back edge, and some path takes more steps than the greatest potential, if LOOPs may take both
    /// edges.
    StepsMayPass,
    /// None of these was found. There is a back edge, and each cycle takes the edge to the target of a LOOP that may pay: on each path to that
    /// LOOP its counter is set.
    NoSteps(BackWay),
    /// None of these was found, and a way leads back.
    Unfound(BackWay),
    /// None of these holds.
    Unknown,
}
