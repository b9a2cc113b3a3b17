//! The named program: what a source says, as a list of items. Each construct has items where it begins, where its parts meet and where
//! it ends, as brackets have; a value has its operands before it.

/// What an item is. `Item` has the fields that are named here.
#[derive(Clone, Copy)]
pub enum ItemKind {
    // Values, which follow their operands.
    /// The number `a`.
    Number,
    /// What the name stands for.
    Named,
    /// The number of the last refusal.
    WhyValue,
    Add,
    Sub,
    Mul,
    Div,
    Rem,
    Mask,
    Left,
    Right,
    /// A call with `a` arguments; `b` is 1 if `?` follows. `c` is the offset of the first argument if that is a name.
    Call,
    /// A field of what is before, with an index if `a` is 1; `b` is the sum of 1 if `?` follows, and 2 if `?` follows a field of this field.
    /// `c` is 0, or the number of the item before it, from 1 on, that is the field whose field this is.
    Field,
    /// The name of the word that is to hold a new block's handle.
    Handle,

    // Statements.
    /// A statement begins: `a` is 1 if it has a handler, `b` is 1 if `?` follows an output.
    Begin,
    /// A statement ends.
    End,
    /// Names value `a` of `b`; no value, if `b` is 0.
    Let,
    /// Sets the name to value `a` of `b`.
    Assign,
    /// Sets the field, as `Field` reads it: to the value before it, or, if `c` is not 0, to the `c` bytes of a string. Each number before it then
    /// has two bytes, the first one in its low half.
    Store,
    /// Nothing is done with what the call gives.
    Done,
    /// Outputs a word, by the `out` at offset `a`.
    Put,
    /// Marks the block.
    Dirty,
    /// What handles the refusals of a statement, and its end.
    Handler,
    HandlerEnd,
    Scope,
    ScopeEnd,

    // Conditions: alternatives, each of tests that are all to hold.
    If,
    Alt,
    /// Brackets around alternatives: `a` is 1 if `!` is before them.
    Group,
    GroupEnd,
    /// Compares two values: `a` is 0 to 7 for `==`, `!=`, `<`, `>=`, `>`, `<=`, `differ` and `same`.
    Test,
    AltEnd,
    CondEnd,
    Else,
    IfEnd,

    // Loops, locks and others.
    /// At most so many turns as the constant `a` says.
    Turns,
    /// Counts the name from one value to another, by a third.
    For,
    /// An iteration ends; all iterations are used; the loop ends.
    TurnEnd,
    LoopDone,
    Try,
    TryElse,
    TryEnd,
    /// The call locks a block: `a` and `b` are the offsets of its names, `c` is the number of its arguments, plus 256 if `?` follows.
    Lock,
    LockEnd,
    LockElse,
    LockDone,
    Break,
    Continue,
    /// Fails; with a number before it, if `a` is 1.
    Fail,
    /// Returns `a` values.
    Return,

    // Declarations.
    /// A routine: `a` is the sum of 1 for `pub`, 4 if it may be refused, 8 for each result; `b` is how many parameters follow.
    Fn,
    /// A word: `a` is 1 if the routine sets it, `b` is the constant that it is at most.
    WordParam,
    /// A block: `a` is 0 for `mem`, 1 for `vm`, 2 for `group`.
    BlockParam,
    /// A pointer: `a` is the constant of its bytes, `b` the offset of its block's name.
    PointerParam,
    /// The statements of a routine begin: `a` is 1 if `else` follows them.
    Body,
    BodyElse,
    BodyEnd,
    /// Names a constant.
    ConstDef,
    /// A structure, whose fields follow: `a` is 1 for bytes, 2 for words, otherwise the constant of a structure; `b` is 1 for an array, and
    /// `c` is how many elements it has.
    StructDef,
    FieldDef,
    StructEnd,
}

/// No constant, or no place.
pub const NONE: u32 = u32::MAX;

/// A constant is a number below this, or this plus the offset of a name in the source.
pub const NUMBERS: u32 = 65_536;

/// An item: what it is, and its offset in the source, mostly that of its name.
#[derive(Clone, Copy)]
pub struct Item {
    pub kind: ItemKind,
    pub at: u32,
    pub a: u32,
    pub b: u32,
    pub c: u32,
}

impl Item {
    /// An item without further fields.
    pub(crate) fn new(kind: ItemKind, at: u32) -> Item {
        Item {
            kind,
            at,
            a: 0,
            b: 0,
            c: 0,
        }
    }
}
