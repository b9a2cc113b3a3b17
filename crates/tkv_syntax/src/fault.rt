//! Faults of a source.

use crate::item::NONE;
use crate::words::Word;
use std::alloc::{AllocError, AllocFailed};

/// Why a source is refused. `Fault` says what its fields are for each.
#[derive(Clone, Copy)]
pub enum Why {
    /// An allocation was refused.
    Memory,
    /// The source has more than 1,048,576 bytes.
    TooLong,
    /// No word of the language begins here.
    NoWord,
    /// A number is above 65,535, or has no digit, or no character is quoted.
    BadNumber,
    /// A string is empty, too long or not closed, or has a character that is none.
    BadText,
    /// A string is where nothing is that it could be written into.
    Text,
    /// A string is longer than its field; `number` is how many bytes the field has.
    LongText,
    /// A name has more than 16 letters.
    LongName,
    /// `word` is expected here.
    Expected,
    /// A value is expected here: a number, a name or a bracket.
    ExpectedValue,
    /// A sign, or the `=` of `+=`, is where a value is expected.
    NoSign,
    /// A comparison is where a value is expected.
    NoTruth,
    /// A condition is expected here.
    ExpectedCondition,
    /// A word of the language is where a name, a value or a statement is expected.
    Reserved,
    /// A declaration is expected here.
    ExpectedFn,
    /// `std` is expected after `use`.
    ExpectedUse,
    /// A declaration is in a routine.
    Inner,
    /// A parameter is expected here.
    ExpectedParam,
    /// A field is expected here.
    ExpectedField,
    /// A semicolon ends no statement.
    Empty,
    /// No statement begins with this name.
    NoStatement,
    /// A `{` follows a statement that has no statements of its own.
    NoBody,
    /// The parts of a `for` are expected here.
    ExpectedFor,
    /// The bound of a loop is expected here.
    ExpectedMax,
    /// `?` follows something that is never refused.
    NotRefusable,
    /// This can't be set.
    NotSettable,
    /// A routine has more than 8 parameters.
    ManyParameters,
    /// A lock is expected before `as`.
    ExpectedLock,
    /// A name is used twice; `other` is its first place.
    Twice,
    /// A name is twice in a list of names that a value sets.
    TwiceSet,
    /// The name is that of a routine of the library, which the source uses.
    InLibrary,
    /// The name is that of an instruction.
    Instruction,
    /// Nothing has this name here.
    Unknown,
    /// Neither a routine nor an instruction has this name. `number` is 0, or the code of an instruction that has nearly this name, or
    /// 65,535 for a routine that is declared at `other`.
    NoCall,
    /// A lock is called without names for what it locks.
    LockOnly,
    /// The name stands for something that is no word.
    NoWordHere,
    /// A constant is expected here.
    NoConstant,
    /// A locked block is expected here.
    NoBlock,
    /// A pointer is expected here.
    NoPointer,
    /// A call has the wrong number of arguments; `number` is how many it takes.
    Arguments,
    /// The structure has no such field.
    NoField,
    /// The field has an index, or has none.
    FieldIndex,
    /// A constant is past what a word holds, or is divided by 0.
    ConstantRange,
    /// The number of a `fail` is 0.
    FailZero,
    /// No instruction multiplies or divides by this: one side must be a constant, and a divisor a power of two.
    NoInstruction,
    /// This may be refused, and nothing says what happens then.
    Unsaid,
    /// The refusal has nowhere to go: the routine always gives a result.
    NoWayOut,
    /// The word is not set on every path to this place.
    Unset,
    /// `why` is not known here.
    WhyUnknown,
    /// The pointer may be stale; `other` is the call that may move its chunk.
    Stale,
    /// The pointer is not fetched on every path to this place.
    NotFetched,
    /// There is no word left; `holders` are the names that hold words.
    NoWordLeft,
    /// There is no pointer left.
    NoPointerLeft,
    /// There is no slot left.
    NoSlotLeft,
    /// There is no counter left.
    NoCounterLeft,
    /// Nothing leads to this place.
    Unreached,
    /// `break` or `continue` is not in a loop.
    NoLoop,
    /// A block of the file is locked here, and the call writes the file.
    Commits,
    /// The pointer has too few bytes; `number` is how many it is known to have.
    PastEnd,
    /// The index is past the array that the field is; `number` is how many elements this has.
    PastArray,
    /// The index may be past the array, and nothing says what happens then; `number` is how many elements this has.
    PastPerhaps,
    /// A value is dropped.
    Dropped,
    /// The value gives a different number of words; `number` is how many.
    Values,
    /// A call that gives several words is part of a value; `number` is how many words it gives.
    Several,
    /// A routine does not return all of its results here, or more; `number` is how many it has.
    Returns,
    /// A routine calls itself.
    CallsItself,
    /// A public routine is called only from outside, takes words and lent blocks, and gives no result.
    Public,
    /// The blocks are of two kinds, or the block is not of the kind that is expected.
    Kinds,
    /// A loop has at least one turn.
    NoTurn,
    /// The source has too many declarations, instructions or nested blocks.
    TooMany,
    /// Nothing in this can be refused.
    NothingRefused,
    /// The condition holds always, or never.
    AlwaysOrNever,
    /// No path leads to the end of the routine.
    NoEnd,
    /// The program has no public routine.
    NoRoutine,
    /// A test calls something that is no public routine of the source.
    Untestable,
    /// An argument of a test is above the bound of the parameter at `other`; `number` is the bound.
    PastBound,
    /// The verifier refuses an instruction of this place; `number` is its rule.
    Refused,
    /// No bound on the steps of the routine is found.
    NoSteps,
    /// The code that was made is not that of the routine: a fault of the compiler.
    OtherCode,
}

/// Why a source is refused, and where: offsets in the source.
#[derive(Clone, Copy)]
pub struct Fault {
    pub why: Why,
    /// Where it is.
    pub at: u32,
    /// Another place that it speaks of.
    pub other: u32,
    /// A number that it speaks of.
    pub number: u16,
    /// A word of the language that it speaks of.
    pub word: Word,
    /// Where the names are declared that hold w0 to w6; `NONE` for a word that no name holds.
    pub holders: [u32; 7],
}

impl Fault {
    /// A fault that speaks only of its place.
    pub fn new(why: Why, at: u32) -> Fault {
        Fault {
            why,
            at,
            other: at,
            number: 0,
            word: Word::End,
            holders: [NONE; 7],
        }
    }
}

impl From<AllocError> for Fault {
    fn from(_: AllocError) -> Fault {
        Fault::new(Why::Memory, 0)
    }
}

impl<T: Drop> From<AllocFailed<T>> for Fault {
    fn from(_: AllocFailed<T>) -> Fault {
        Fault::new(Why::Memory, 0)
    }
}
