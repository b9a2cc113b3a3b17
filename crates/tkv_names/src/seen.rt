//! What is known of names and values.

ghost use Rattle.std.specs.Prelude.{◌≡◌, ◌≢◌, IsTrue, IfSome};
ghost use Rattle.tkv_names.specs.declared.seen.Known.TheVariants as what;
ghost use Rattle.tkv_names.specs.Seen.{IsFree, pushed, popped, written};

/// What is known of a value that is not used yet.
#[derive(Clone, Copy)]
pub(crate) enum Known {
    /// There is none, or nothing is known of it.
    Nothing,
    Constant(u16),
    /// The register has it.
    Register(u8),
}

impl Known {
    /// Whether it is not known that the value is in the register.
    fn is_beside(self, register: u8) -> bool
        ensures { IsTrue result → self ≢ what.Register register }
    {
        match self {
            Known::Register(other) => other != register,
            Known::Nothing | Known::Constant(_) => true,
        }
    }
}

/// What is known after some items of the source, and the placed items that do what they say.
#[derive(Clone, Copy)]
pub(crate) struct Seen {
    /// The next item of the source, and the next placed one.
    pub item: usize,
    pub placed: usize,
    /// How many brackets are open around the next placed item.
    pub level: usize,
    /// Where the source has the name of the word that a register has.
    pub held: [Option<u32>; 8],
    /// The last four values that are not used yet, the last one first.
    pub first: Known,
    pub second: Known,
    pub third: Known,
    pub fourth: Known,
}

impl Seen {
    /// After an item that only adds a value.
    pub(crate) fn pushed(self, known: Known) -> Option<Seen>
        ensures { IfSome result (λ next. next ≡ pushed self known) }
    {
        match self.item.checked_add(1) {
            Some(item) => Some(Seen {
                item,
                first: known,
                second: self.first,
                third: self.second,
                fourth: self.third,
                ..self
            }),
            None => None,
        }
    }

    /// Without the last value.
    pub(crate) fn popped(self) -> Seen
        ensures { result ≡ popped self }
    {
        Seen {
            first: self.second,
            second: self.third,
            third: self.fourth,
            fourth: Known::Nothing,
            ..self
        }
    }

    /// After a placed instruction that sets a register, if no value is there.
    pub(crate) fn written(self, register: u8) -> Option<Seen>
        ensures { IfSome result (λ next. IsFree self register × (next ≡ written self register)) }
    {
        let last = self.first.is_beside(register) && self.second.is_beside(register);
        let others = self.third.is_beside(register) && self.fourth.is_beside(register);
        if register >= 8 || !last || !others {
            return None;
        }
        let mut held = self.held;
        held[usize::from(register)] = None;
        match self.placed.checked_add(1) {
            Some(placed) => Some(Seen {
                placed,
                held,
                ..self
            }),
            None => None,
        }
    }
}
