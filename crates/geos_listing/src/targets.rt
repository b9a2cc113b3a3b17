//! The places that labels name.

ghost use Rattle.std.specs.Prelude.{◌≡◌};
ghost use Rattle.geos_listing.specs.Instrs.{target_of, MarksTargets};

use geos_image::{Image, Instr};
use geos_opcodes::{Field, Operand, operand_at};

/// For each pc of an image, of which there are at most so many, whether a label names it.
pub type Targets = [bool; 4096];

/// Where the instruction may lead besides the next one.
fn target_of(instr: &Instr) -> Option<u16>
    ensures { result ≡ target_of instr.now }
{
    match operand_at(instr.opcode, Field::Target) {
        Operand::Label => Some(instr.target),
        Operand::Unused
        | Operand::Word
        | Operand::Counter
        | Operand::Slot
        | Operand::Pointer
        | Operand::Number
        | Operand::Shift
        | Operand::Routine => None,
    }
}

/// The pcs to which some instruction may lead by its label.
pub fn targets_of(image: &Image) -> Targets
    ensures { MarksTargets image.now.points result }
{
    let mut targets = [false; 4096];
    for pc in 0..image.len() {
        if let Some(target) = target_of(image.instr(pc)) {
            targets[usize::from(target)] = true;
        }
    }
    targets
}
