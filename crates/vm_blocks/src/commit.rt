//! Commits of the blocks of a file.
ghost use Rattle.std.specs.Prelude.{◌≡◌, length, true};
ghost use Rattle.geos_calls.specs.VmCalls.{commit};
ghost use Rattle.vm_file.specs.Committing.{CommitsFile, MayCommit};
ghost use Rattle.vm_file.specs.Directories.{is_directory};
ghost use Rattle.vm_blocks.specs.Commit.{CommitsBlocks, Lists};
ghost use Rattle.vm_blocks.specs.DoesRow.{DoesRow};
ghost use Rattle.vm_blocks.specs.Listed.{DropsAll, IsListOf, NoneLocked, StoreAfter, directory_of, len_now, resident_of};
ghost use Rattle.vm_blocks.specs.ListedCalls.{keeper_of};
ghost use Rattle.vm_blocks.specs.Refused.{of_commit};
ghost use Rattle.vm_blocks.specs.Tied.{IsTied};
ghost use Rattle.vm_blocks.specs.View.{vm_slot};
ghost use Rattle.block_handles.specs.Store.{block_at};

use crate::blocks::VmBlocks;
use crate::entries::{Held, list};
use crate::resident::Resident;
use arrayvec::ArrayVec;
use block_handles::Blocks;
use geos_terms::Name;
use vm_file::{CommitError, Device, Directory, Entry, How, VmFile};

/// The length of a listed block: as it is in memory, otherwise as it is listed.
fn len_now(blocks: &Blocks, h: u16, held: Held) -> u16
    ensures { result ≡ len_now held (block_at blocks.now (vm_slot h)) }
{
    if blocks.has(Name::vm(h)) {
        blocks.size(Name::vm(h)) as u16
    } else {
        held.len
    }
}

/// Keeps a pair on the device: the blocks that are in memory are taken from there.
fn commit_file<D: Device + Drop>(
    file: &mut VmFile<D>,
    blocks: &Blocks,
    how: How,
    cur: &Directory,
) -> Result<(), CommitError>
    requires { MayCommit (resident_of blocks.now) file.old.current cur.now }
    ensures commits { CommitsFile D.medium how (resident_of blocks.now) cur.now file.old file.new result }
    ensures lists { Lists D.medium.image file.old }
    ensures legal { is_directory file.old.saved ≡ true }
{
    // recalls the facts of the file's directories
    let _ = file.current();
    let _ = file.saved();
    file.commit(how, cur, &Resident { blocks })
}

/// Frees the blocks of the file that are in memory.
fn free_all(blocks: &mut Blocks)
    requires { NoneLocked blocks.old }
    ensures { DropsAll blocks.old blocks.new }
{
    for h in 1..Name::HANDLES + 1 {
        let _ = blocks.free(Name::vm(h));
    }
}

/// The blocks in memory after a commit: a revert removes those of
/// the file, because they are not those of the current directory.
fn leave(blocks: &mut Blocks, how: How)
    requires { NoneLocked blocks.old }
    ensures { StoreAfter how blocks.old blocks.new }
{
    match how {
        How::Update => {}
        How::Save => {}
        How::Revert => free_all(blocks),
    }
}

impl<D: Device + Drop> VmBlocks<D> {
    /// The current directory, with each block at the length that it has now.
    #[tactic(auto, using(crate::proofs::Listing::listed_next, crate::proofs::Listing::listed_skip))]
    fn listed(&self, blocks: &Blocks) -> Directory
        requires { IsTied D.medium self.now blocks.now }
        ensures { result ≡ directory_of self.now blocks.now }
    {
        let mut entries = ArrayVec::new();
        for i in 0..Name::HANDLES {
            let h = i + 1;
            if let Some(held) = self.held(h) {
                let len = len_now(blocks, h, held);
                entries.push(Entry {
                    h,
                    uid: held.uid,
                    len,
                });
            }
        }
        Directory {
            entries,
            map_block: self.map_block,
            map_item: self.map_item,
        }
    }

    /// Lists what the current directory of the file lists, without a mark.
    fn relist(&mut self)
        ensures lists { IsListOf self.new self.old.file.current }
        ensures file { self.new.file ≡ self.old.file }
        ensures long { length self.new.entries ≡ 1024 }
        ensures legal { is_directory self.new.file.current ≡ true }
    {
        let current = self.file.current();
        list(&mut self.entries, current);
        self.map_block = current.map_block;
        self.map_item = current.map_item;
    }

    /// Commits the pair that `How` names, of the blocks as they are now and of the saved directory, and
    /// continues with it. No block is marked any more. If it reverts, no block of the file stays in memory.
    ///
    /// `Unsure` if the file is unsure, `TooBig` if it is sure and the pair is longer than the area, `Memory` if an
    /// allocation is refused: nothing has changed. `Disk` if the device fails, or returns bytes that are no heap under
    /// their handle: blocks and marks are unchanged, and the file may be unsure.
    pub fn commit(&mut self, blocks: &mut Blocks, how: How) -> Result<(), CommitError>
        requires tied { IsTied D.medium self.old blocks.old }
        requires free { NoneLocked blocks.old }
        ensures tied { IsTied D.medium self.new blocks.new }
        ensures commits { CommitsBlocks D.medium how self.old self.new blocks.old blocks.new result }
        // Its row of the table of calls, in each memory that the model may have before it.
        ensures row { DoesRow D.medium (commit (keeper_of how)) (of_commit result) self.old blocks.old self.new blocks.new }
    {
        let cur = self.listed(blocks);
        match commit_file(&mut self.file, blocks, how, &cur) {
            Ok(()) => {}
            Err(error) => return Err(error),
        }
        self.relist();
        leave(blocks, how);
        Ok(())
    }
}
