//! Entry states: what is known of the registers wherever control comes to a place.

ghost use Rattle.std.specs.Prelude.{◌≡◌};
ghost use Rattle.geos_image.specs.Open.{open_row};
ghost use Rattle.geos_image.specs.Legal.{is_own};
ghost use Rattle.geos_image.specs.Spelling.{slot_code};
ghost use Rattle.geos_image.specs.Reading.{slot_of};

/// What a row says of a slot.
#[derive(Clone, Copy, PartialEq, Eq)]
pub enum SlotState {
    /// It holds nothing.
    Empty,
    /// It holds a memory block.
    Mem,
    /// It holds a VM block, which may be known to be marked as changed, and which the routine may have borrowed from its
    /// caller.
    Vm { marked: bool, borrowed: bool },
    /// It holds a DB group, which may be known to be marked as changed.
    Db { marked: bool },
}

impl SlotState {
    /// The byte that encodes it.
    pub(crate) fn code(self) -> u8
        ensures { result ≡ slot_code self }
    {
        match self {
            SlotState::Empty => 0,
            SlotState::Mem => 1,
            SlotState::Vm { marked, borrowed } => 2 + u8::from(marked) + 4 * u8::from(borrowed),
            SlotState::Db { marked } => 4 + u8::from(marked),
        }
    }

    /// Whether it is not borrowed from a routine's caller.
    pub fn is_own(self) -> bool
        ensures { result ≡ is_own self }
    {
        match self {
            SlotState::Vm {
                marked: _,
                borrowed,
            } => !borrowed,
            _ => true,
        }
    }

    /// The state that the byte encodes, if it encodes one. `borrows` says whether a slot may be borrowed.
    #[tactic(auto, using(crate::proofs::SlotLaws::slot_is_named))]
    #[inline(always)]
    pub(crate) fn from_code(borrows: bool, code: u8) -> Option<SlotState>
        ensures { result ≡ slot_of borrows code }
    {
        if code == 0 {
            Some(SlotState::Empty)
        } else if code == 1 {
            Some(SlotState::Mem)
        } else if code < 4 {
            Some(SlotState::Vm {
                marked: code == 3,
                borrowed: false,
            })
        } else if code < 6 {
            Some(SlotState::Db { marked: code == 5 })
        } else if borrows && code < 8 {
            Some(SlotState::Vm {
                marked: code == 7,
                borrowed: true,
            })
        } else {
            None
        }
    }
}

/// What a row says of a pointer that is not stale.
#[derive(Clone, Copy, PartialEq, Eq)]
pub struct Pointer {
    /// The slot whose block it leads into, 0 to 3.
    pub slot: u8,
    /// The least number of bytes from the pointer on.
    pub least: u16,
}

/// An entry state: what is known of the registers before an instruction.
#[derive(Clone, Copy, PartialEq, Eq)]
pub struct Row {
    /// The words w0 to w7 are at most these.
    pub bounds: [u16; 8],
    /// The slots s0 to s3.
    pub slots: [SlotState; 4],
    /// The pointers p0 to p3; nothing is known of one that is `None`, which may be stale.
    pub pointers: [Option<Pointer>; 4],
    /// The pairs of slots that are known to hold different blocks: s0s1, s0s2, s0s3, s1s2,
    /// s1s3, s2s3.
    pub pairs: [bool; 6],
}

impl Row {
    /// The open row: nothing is known of the words and pointers, and all slots are empty.
    pub fn open() -> Row
        ensures { result ≡ open_row }
    {
        Row {
            bounds: [u16::MAX; 8],
            slots: [SlotState::Empty; 4],
            pointers: [None; 4],
            pairs: [false; 6],
        }
    }
}
