//! Pairs of slots that are known to hold different blocks.

ghost use Rattle.std.specs.Prelude.{◌≡◌, ◌&&◌, ◌||◌, ◌==◌, not, slice_index_or};
ghost use Rattle.geos_verify.specs.Pairs.{is_pair, has_slot, without_slot, with_pair, with_pairs, are_apart};
ghost use Rattle.geos_verify.specs.Rows.{holds_kind};
ghost use Rattle.geos_image.specs.declared.row.SlotState.TheVariants.{Empty};

use crate::slots::holds_kind;
use geos_image::SlotState;
use geos_opcodes::Kind;

/// Whether the pair is of these two slots.
fn is_pair(a: u8, b: u8, pair: (u8, u8)) -> bool
    ensures { result ≡ is_pair a b pair }
{
    pair.0 == a && pair.1 == b || pair.0 == b && pair.1 == a
}

/// Whether the pair is known still where nothing is known of a slot.
fn stays(known: bool, a: u8, pair: (u8, u8)) -> bool
    ensures { result ≡ known && not (has_slot a pair) }
{
    known && !(pair.0 == a || pair.1 == a)
}

/// The pairs without those of a slot.
pub(crate) fn without_slot(a: u8, pairs: &[bool; 6]) -> [bool; 6]
    ensures { result ≡ without_slot a pairs.now }
{
    let [p01, p02, p03, p12, p13, p23] = *pairs;
    [
        stays(p01, a, (0, 1)),
        stays(p02, a, (0, 2)),
        stays(p03, a, (0, 3)),
        stays(p12, a, (1, 2)),
        stays(p13, a, (1, 3)),
        stays(p23, a, (2, 3)),
    ]
}

/// Whether the pair is known where these two slots are known to differ.
fn learns(known: bool, a: u8, b: u8, pair: (u8, u8)) -> bool
    ensures { result ≡ known || is_pair a b pair }
{
    known || is_pair(a, b, pair)
}

/// The pairs where two slots are known to differ.
pub(crate) fn with_pair(a: u8, b: u8, pairs: &[bool; 6]) -> [bool; 6]
    ensures { result ≡ with_pair a b pairs.now }
{
    let [p01, p02, p03, p12, p13, p23] = *pairs;
    [
        learns(p01, a, b, (0, 1)),
        learns(p02, a, b, (0, 2)),
        learns(p03, a, b, (0, 3)),
        learns(p12, a, b, (1, 2)),
        learns(p13, a, b, (1, 3)),
        learns(p23, a, b, (2, 3)),
    ]
}

/// Whether the pair is known where slot a is known to differ from the other one of the pair,
/// if that one passes a test.
fn learns_of(known: bool, a: u8, first: (u8, bool), second: (u8, bool)) -> bool
    ensures { result ≡ known || (first.0 == a && second.1) || (second.0 == a && first.1) }
{
    known || first.0 == a && second.1 || second.0 == a && first.1
}

/// The pairs where slot a holds a new block, of this kind.
pub(crate) fn with_new(a: u8, kind: Kind, slots: &[SlotState; 4], pairs: &[bool; 6]) -> [bool; 6]
    ensures { result ≡ with_pairs a (λ b. holds_kind kind (slice_index_or slots.now b Empty)) pairs.now }
{
    let [s0, s1, s2, s3] = *slots;
    let first = (0, holds_kind(kind, s0));
    let second = (1, holds_kind(kind, s1));
    let third = (2, holds_kind(kind, s2));
    let fourth = (3, holds_kind(kind, s3));
    let [p01, p02, p03, p12, p13, p23] = *pairs;
    [
        learns_of(p01, a, first, second),
        learns_of(p02, a, first, third),
        learns_of(p03, a, first, fourth),
        learns_of(p12, a, second, third),
        learns_of(p13, a, second, fourth),
        learns_of(p23, a, third, fourth),
    ]
}

/// Whether the pair is known and is of these two slots.
fn tells(known: bool, a: u8, b: u8, pair: (u8, u8)) -> bool
    ensures { result ≡ known && is_pair a b pair }
{
    known && is_pair(a, b, pair)
}

/// Whether two slots are known to hold different blocks.
pub(crate) fn are_apart(a: u8, b: u8, pairs: &[bool; 6]) -> bool
    ensures { result ≡ are_apart a b pairs.now }
{
    let [p01, p02, p03, p12, p13, p23] = *pairs;
    tells(p01, a, b, (0, 1))
        || tells(p02, a, b, (0, 2))
        || tells(p03, a, b, (0, 3))
        || tells(p12, a, b, (1, 2))
        || tells(p13, a, b, (1, 3))
        || tells(p23, a, b, (2, 3))
}
