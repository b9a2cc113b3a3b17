//! The edges of a routine with what they cost, and what they do to counters.

ghost use Rattle.std.specs.Prelude.{◌≡◌, ◌<◌, ◌≤◌, ◌+◌, false, slice_index_or};

/// What an edge does to counters.
#[derive(Clone, Copy)]
pub enum Counting {
    Nothing,
    /// After it the counter is at most this.
    Sets(u8, u16),
    /// A unit is taken from the counter.
    Takes(u8),
    /// After it nothing is known of these counters.
    Forgets([bool; 4]),
}

/// An edge that stays in its routine.
#[derive(Clone, Copy)]
pub struct Arc {
    /// Where it leads.
    pub to: u16,
    /// The budget of the routine that is called; 0 if none is.
    pub called: u32,
    pub counting: Counting,
    ghost inside: { to < 4096 },
}

impl Arc {
    ghost use Rattle.std.specs.Prelude.{◌≡◌, ◌≤◌, ◌<◌, ◌+◌, ℕ, IfSome, IfNone};
    ghost use Rattle.control_graph.specs.declared.arcs.Counting.TheVariants.{Sets};
    ghost use Rattle.control_graph.specs.Arcs.{keeps, forgets, taken_from};

    /// Its step, and the budget of the routine that is called.
    pub fn steps(&self) -> u64
        ensures value { result ≡ 1 + self.now.called }
        ensures small { result ≤ 4294967296 }
    {
        1 + u64::from(self.called)
    }

    /// Whether the coefficient of a counter before it has to be at least that after it.
    pub fn keeps(&self, counter: u8) -> bool
        ensures { result ≡ keeps self.now.counting counter }
    {
        match self.counting {
            Counting::Sets(set, _) => set != counter,
            Counting::Forgets(counters) => !is_among(&counters, counter),
            _ => true,
        }
    }

    /// Whether nothing is known of a counter after it.
    pub fn forgets(&self, counter: u8) -> bool
        ensures { result ≡ forgets self.now.counting counter }
    {
        match self.counting {
            Counting::Forgets(counters) => is_among(&counters, counter),
            _ => false,
        }
    }

    /// The counter that it takes a unit from.
    pub fn takes(&self) -> Option<u8>
        ensures { result ≡ taken_from self.now.counting }
    {
        match self.counting {
            Counting::Takes(counter) => Some(counter),
            _ => None,
        }
    }

    /// The counter that it sets to a number above 0, and that number at most.
    pub fn sets(&self) -> Option<(u8, u16)>
        ensures some { IfSome result (λ both. (self.now.counting ≡ Sets both.0 both.1) × (0 < both.1)) }
        ensures none { IfNone result ((k n : ℕ) → self.now.counting ≡ Sets k n → n ≡ 0) }
    {
        match self.counting {
            Counting::Sets(counter, most) if 0 < most => Some((counter, most)),
            _ => None,
        }
    }
}

/// Whether a counter is one of these.
fn is_among(counters: &[bool; 4], counter: u8) -> bool
    ensures { result ≡ slice_index_or counters.now counter false }
{
    match counters.get(usize::from(counter)) {
        Some(is) => *is,
        None => false,
    }
}
