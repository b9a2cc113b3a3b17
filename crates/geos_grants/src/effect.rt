//! What instructions may do to what is not the routine's own.

/// Something that a routine may do to what is not its own.
#[derive(Clone, Copy)]
pub enum Effect {
    /// Outputs words.
    Output,
    /// Reads the block that is lent to this slot, 0 to 3.
    ReadsLent(u8),
    /// Marks the block that is lent to this slot, 0 to 3, or changes its chunks.
    ChangesLent(u8),
    /// Makes, locks, unlocks, frees or changes blocks of global memory.
    Memory,
    /// Locks blocks of global memory by their handles, also blocks that it did not make.
    LocksByHandle,
    /// Reads the VM file: finds or locks its blocks and groups, or reads one that it locked.
    ReadsFile,
    /// Changes blocks, groups, items or user IDs of the VM file that are not lent to it.
    ChangesFile,
    /// Changes the map block or the map item.
    Map,
    /// Updates, saves or reverts the VM file.
    Commits,
}
