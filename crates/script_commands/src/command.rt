//! The commands of a script.

use vm_file::How;

/// A call of a routine, with these words, and with blocks of the VM
/// file: a handle for each slot that it borrows, and 0 for the others.
#[derive(Clone, Copy)]
pub struct Call {
    pub routine: u16,
    pub words: [u16; 8],
    pub handles: [u16; 4],
}

/// A command that may be carried out.
#[derive(Clone, Copy)]
pub enum Command {
    /// A call that the machine admits.
    Call(Call),
    /// The VM file keeps one of its pairs of directories.
    Commit(How),
}

/// A command, and the number of its line, counted from 1.
#[derive(Clone, Copy)]
pub struct Numbered {
    pub line: usize,
    pub command: Command,
}
