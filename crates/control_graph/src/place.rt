//! A place of a routine, which tables have an item for.

ghost use Rattle.std.specs.Prelude.{◌<◌};

/// The pc of an instruction.
#[derive(Clone, Copy)]
pub struct Place {
    pub pc: u16,
    ghost inside: { pc < 4096 },
}
