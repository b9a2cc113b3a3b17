//! Operations on a register and a constant, and on two constants.

ghost use Rattle.std.specs.Prelude.{◌≡◌, ◌^◌, IfSome, IsTrue};
ghost use Rattle.tkv_syntax.specs.declared.item.ItemKind.TheVariants as kind;
ghost use Rattle.tkv_names.specs.Named.{joined};
ghost use Rattle.tkv_names.specs.Seen.{Immediate, IsFolded, Commutes};

use geos_opcodes::Opcode;
use tkv_syntax::ItemKind;

/// The power of two with an exponent, if it is a word.
fn power(exponent: u16) -> Option<u16>
    ensures { IfSome result (λ power. power ≡ 2 ^ exponent) }
{
    if exponent > 15 {
        return None;
    }
    Some(1 << exponent)
}

/// The exponent, if a number is a power of two.
fn exponent_of(number: u16) -> Option<u16>
    ensures { IfSome result (λ exponent. number ≡ 2 ^ exponent) }
{
    for exponent in 0..16 {
        if power(exponent) == Some(number) {
            return Some(exponent);
        }
    }
    None
}

/// The opcode and the number of the instruction that does an operation on a register and a constant.
pub(crate) fn immediate(kind: ItemKind, number: u16) -> Option<(Opcode, u16)>
    ensures { IfSome result (λ one. Immediate kind number one.0 one.1) }
{
    match kind {
        ItemKind::Mul => Some((Opcode::Muli, number)),
        ItemKind::Mask => Some((Opcode::And, number)),
        ItemKind::Right => Some((Opcode::Shr, number)),
        ItemKind::Left => Some((Opcode::Muli, power(number)?)),
        ItemKind::Div => Some((Opcode::Shr, exponent_of(number)?)),
        ItemKind::Rem => {
            exponent_of(number)?;
            Some((Opcode::And, number.saturating_sub(1)))
        }
        _ => None,
    }
}

/// Whether the constant of an operation may be its left operand.
pub(crate) fn commutes(kind: ItemKind) -> bool
    ensures { IsTrue result → Commutes kind }
{
    match kind {
        ItemKind::Mul => true,
        ItemKind::Mask => true,
        _ => false,
    }
}

/// The sum, difference, product, quotient or remainder of two constants, if it is a word.
fn arithmetic(kind: ItemKind, left: u16, right: u16) -> Option<u16>
    ensures { IfSome result (λ word. IsFolded kind left right word) }
{
    match kind {
        ItemKind::Add => left.checked_add(right),
        ItemKind::Sub => left.checked_sub(right),
        ItemKind::Mul => left.checked_mul(right),
        ItemKind::Div => left.checked_div(right),
        ItemKind::Rem => left.checked_rem(right),
        _ => None,
    }
}

/// What an operation makes of two constants, if that is a word.
pub(crate) fn folded(kind: ItemKind, left: u16, right: u16) -> Option<u16>
    ensures { IfSome result (λ word. IsFolded kind left right word) }
{
    match kind {
        ItemKind::Mask => Some(left & right),
        ItemKind::Left => left.checked_mul(power(right)?),
        ItemKind::Right => Some(left / power(right)?),
        _ => arithmetic(kind, left, right),
    }
}
