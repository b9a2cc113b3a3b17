//! What is known of the counters after a path.

ghost use Rattle.std.specs.Prelude.{◌≡◌, ◌<◌, ℕ, true, false, slice_index_or, slice_set};
ghost use Rattle.geos_image.specs.Fields.{FieldsFit};
ghost use Rattle.geos_verify.specs.Lists.{zip2};
ghost use Rattle.loop_causes.specs.Turns.{counter_at, number_in, unless_changed, loop_after, counters_after};
ghost use Rattle.loop_causes.specs.declared.counters.Counter.TheVariants.{Kept, Unknown};

use geos_image::{Instr, Opcode};

/// What is known of a counter after a path.
#[derive(Clone, Copy)]
pub(crate) enum Counter {
    /// It is what it was where the way began.
    Kept,
    Is(u16),
    Unknown,
}

/// What is known of one of them; there is no other.
pub(crate) fn counter_at(counters: &[Counter; 4], k: u8) -> Counter
    ensures { result ≡ counter_at counters.now k }
{
    match counters.get(usize::from(k)) {
        Some(counter) => *counter,
        None => Counter::Unknown,
    }
}

/// The counters, with what is known of one of them.
pub(crate) fn with_counter(counters: &[Counter; 4], k: u8, counter: Counter) -> [Counter; 4]
    requires { k < 4 }
    ensures { result ≡ slice_set counters.now k counter }
{
    let mut next = *counters;
    next[usize::from(k)] = counter;
    next
}

/// How much a counter is at least.
pub(crate) fn number_in(counter: Counter) -> u16
    ensures { result ≡ number_in counter }
{
    match counter {
        Counter::Is(n) => n,
        _ => 0,
    }
}

/// What is known of a counter after a further path, which leaves it unchanged or not.
fn unless_changed(way: Counter, counter: Counter) -> Counter
    ensures { result ≡ unless_changed way counter }
{
    match way {
        Counter::Kept => counter,
        _ => Counter::Unknown,
    }
}

/// The same of all four.
pub(crate) fn unless_all_changed(way: &[Counter; 4], counters: &[Counter; 4]) -> [Counter; 4]
    ensures { result ≡ zip2 unless_changed way.now counters.now }
{
    let [w0, w1, w2, w3] = *way;
    let [k0, k1, k2, k3] = *counters;
    [
        unless_changed(w0, k0),
        unless_changed(w1, k1),
        unless_changed(w2, k2),
        unless_changed(w3, k3),
    ]
}

/// What is known of a counter after a call that touches it or not.
fn unless_touched(touches: bool) -> Counter
    ensures touched { touches ≡ true → result ≡ Unknown }
    ensures kept { touches ≡ false → result ≡ Kept }
{
    if touches {
        Counter::Unknown
    } else {
        Counter::Kept
    }
}

/// What is known of the counters after a call of a routine that touches those given.
pub(crate) fn untouched(touched: &[bool; 4]) -> [Counter; 4]
    ensures touched { (k : ℕ) → slice_index_or touched.now k true ≡ true → counter_at result k ≡ Unknown }
    ensures kept { (k : ℕ) → slice_index_or touched.now k true ≡ false → counter_at result k ≡ Kept }
{
    let [t0, t1, t2, t3] = *touched;
    [
        unless_touched(t0),
        unless_touched(t1),
        unless_touched(t2),
        unless_touched(t3),
    ]
}

/// What is known of a LOOP's counter after one of its edges; `None` if that edge is never taken.
fn loop_after(counter: Counter, branch: bool) -> Option<Counter>
    ensures { result ≡ loop_after counter branch }
{
    match counter {
        Counter::Is(n) => {
            if branch {
                if n == 0 {
                    None
                } else {
                    Some(Counter::Is(n - 1))
                }
            } else if n == 0 {
                Some(Counter::Is(0))
            } else {
                None
            }
        }
        _ => None,
    }
}

/// What is known of the counters after an edge of an instruction; `None` if the edge is never taken. The word of SETKW and the counters that
/// a call touches are given.
pub(crate) fn counters_after(
    i: &Instr,
    branch: bool,
    word: u16,
    called: &[Counter; 4],
    counters: &[Counter; 4],
) -> Option<[Counter; 4]>
    requires { FieldsFit i.now.opcode i.now }
    ensures { result ≡ counters_after word i.now i.now.opcode branch called.now counters.now }
{
    match i.opcode {
        Opcode::Setk => Some(with_counter(counters, i.a, Counter::Is(i.imm))),
        Opcode::Setkw => Some(with_counter(counters, i.a, Counter::Is(word))),
        Opcode::Loop => match loop_after(counter_at(counters, i.a), branch) {
            Some(counter) => Some(with_counter(counters, i.a, counter)),
            None => None,
        },
        Opcode::Call => Some(unless_all_changed(called, counters)),
        _ => Some(*counters),
    }
}
