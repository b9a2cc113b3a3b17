//! What an instruction does with slots and pointers.

ghost use Rattle.std.specs.Prelude.{◌≡◌};
ghost use Rattle.geos_image.specs.Fields.{FieldsFit};
ghost use Rattle.geos_opcodes.specs.Facts.{uses_of};
ghost use Rattle.geos_verify.specs.Uses.{UsesFit};

use geos_image::Instr;
use geos_opcodes::Uses;

/// What an instruction does with slots and pointers: it names ones that there are.
#[inline(always)]
pub fn uses_at(instr: &Instr) -> Uses
    requires { FieldsFit instr.now.opcode instr.now }
    ensures value { result ≡ uses_of instr.now.opcode }
    ensures fit { UsesFit result instr.now }
{
    instr.opcode.facts().uses
}
