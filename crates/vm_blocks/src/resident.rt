//! The blocks in memory, as a commit takes them.
use block_handles::Blocks;
use geos_terms::Name;
use vm_file::Source;

/// The blocks of the file that are in memory.
#[derive(Clone, Copy, Drop)]
pub(crate) struct Resident<'a> {
    pub(crate) blocks: &'a Blocks,
}

impl Source for Resident<'_> {
    ghost use Rattle.vm_blocks.specs.Listed.{resident_of};

    ghost resident_bytes = { λ r h. resident_of r.blocks.now h };

    fn resident(&self, h: u16) -> Option<&[u8]> {
        let blocks = self.blocks;
        if blocks.has(Name::vm(h)) {
            Some(blocks.bytes(Name::vm(h)))
        } else {
            None
        }
    }
}
