//! Files that are open.
ghost use Rattle.std.specs.Prelude.{◌≡◌, ◌+◌, ◌*◌, ◌≤◌, ◌↔◌, ◌++◌, ℕ, List, [], Ok, true, false, not, MatchResult, IfOk, OnOk, OnErr, IsTrue, length};
ghost use Rattle.std.specs.List.{Contains};
ghost use Rattle.std.specs.Vec.{vec_len, vec_capacity};
ghost use Rattle.vm_file.specs.Device.{FailedOnce, Only, Passes, Rose};
ghost use Rattle.vm_file.specs.Noting.{Rests};
ghost use Rattle.vm_file.specs.Outcomes.{BeginsWithSync, CausesDisk, CausesNoBlock, CausesNoBlocks};
ghost use Rattle.vm_file.specs.Outcomes.{IsCaused, IsHeapUnder, IsRefused, LeavesAlike, LeavesBytes, ReadsOnly, WritesOnly};
ghost use Rattle.vm_file.specs.Reading.{file_at};

use crate::changes::write_area;
use crate::commit::{How, Nothing, Source, are_there, go_on, length_after, selector_of};
use crate::create::write_new;
use crate::device::{Device, Disk, Noting, write_durably};
use crate::directory::Directory;
use crate::entries::{directory_length, place_in};
use crate::error::{CommitError, CreateError, OpenError};
use crate::opened::{Opened, base_of, read_file};
use crate::places::PlacedDirectory;
use crate::reader::read_block;
use crate::spell::{Placed, put_again, spell_directory};
use std::alloc::Global;
use std::marker::Model;

/// A VM file on a device. In memory it has the file's two directories, and no block.
#[derive(Drop)]
pub struct VmFile<D: Device + Drop> {
    device: D,
    alloc: Global,
    area: u32,
    second: bool,
    sure: bool,
    /// How many commits have succeeded one after the other, up to 255. After two it has written both areas itself, so that what it
    /// reads there is what lasts. If a write or a `sync` failed, what lasts may differ.
    commits: u8,
    current: PlacedDirectory,
    saved: Directory,
}

impl<D: Device + Drop> Model for VmFile<D> {
    ghost use Rattle.vm_file.specs.State.{FileState, IsSound};

    ghost Value = { FileState D };

    ghost view = { λ f. record { device = f.device; area = f.area; second = f.second; sure = f.sure; current = f.current; saved = f.saved } };

    ghost invariant = { λ f. IsSound D.medium
        (record { device = f.device; area = f.area; second = f.second; sure = f.sure; current = f.current; saved = f.saved }) };
}

impl<D: Device + Drop> VmFile<D> {
    ghost use Rattle.geos_terms.specs.Bytes.{AreBytes};
    ghost use Rattle.lmem_raw.specs.Bytes.{with_part};
    ghost use Rattle.vm_file.specs.Committing.{AreResident, CommitsFile, FindsEither, IsContentsOf, IsKept};
    ghost use Rattle.vm_file.specs.Committing.{MayCommit, MayHaveWritten, NeedsNoRead, Spells, contents_from};
    ghost use Rattle.vm_file.specs.Committing.{current_after, image_after, kept_after, length_after, saved_after};
    ghost use Rattle.vm_file.specs.Contents.{contents_spelling, listed, pair_in};
    ghost use Rattle.vm_file.specs.Directories.{directory_length, is_directory};
    ghost use Rattle.vm_file.specs.Spelling.{empty_contents, empty_pair, new_file};
    ghost use Rattle.vm_file.specs.Reading.{is_area};
    ghost use Rattle.vm_file.specs.State.{Finds, HasBlock, IsOther, ListsPair, ReadsFile, Steadily};
    ghost use Rattle.vm_file.specs.State.{block_at, bytes_of_block, file_of, pair_of, saved_block_at};

    /// Makes a file on a device: writes the header, the selector and two empty directories, and ends with a `sync`.
    /// `area` is a legal area size, and the device has room for the file (`device_length`). Each error returns the
    /// device: `Disk` if it fails; then its first 1,040 bytes may be any bytes.
    pub fn create(alloc: Global, mut device: D, area: u32) -> Result<VmFile<D>, (D, CreateError)>
        requires area { is_area area ≡ true }
        requires room { 1024 + 2 * area ≤ length (D.medium.image device) }
        ensures file { IfOk result (λ file. file ≡ record {
          device = file.device;
          area = area;
          second = false;
          sure = true;
          current = listed empty_contents;
          saved = listed empty_contents;
        }) }
        ensures bytes { D.medium.honest device
            → IfOk result (λ file. D.medium.image file.device ≡ with_part (D.medium.image device) 0 (new_file area)) }
        ensures found { D.medium.honest device → IfOk result
            (λ file. file_at (D.medium.image file.device) ≡ Ok (record { area = area; second = false; pair = empty_pair })) }
        // Whatever it answers, nothing but the first 1,040 bytes was written.
        ensures writes { MatchResult result
            (λ file. WritesOnly D.medium 0 1040 device file.device)
            (λ e. WritesOnly D.medium 0 1040 device e.0) }
        // Nor does a stop at any moment leave others.
        ensures stopped { MatchResult result
            (λ file. LeavesBytes D.medium 0 1040 device file.device)
            (λ e. LeavesBytes D.medium 0 1040 device e.0) }
        ensures durable { D.medium.honest device → IfOk result (λ file. Only (D.medium.image file.device) (D.medium.may_leave file.device)) }
        ensures cause { MatchResult result
            (λ file. D.medium.failed file.device ≡ D.medium.failed device)
            (λ e. (e.1 ≡ CreateError.Disk) × Rose (D.medium.failed device) (D.medium.failed e.0)) }
    {
        match write_new(&mut device, area) {
            Ok(()) => Ok(VmFile {
                device,
                alloc,
                area,
                second: false,
                sure: true,
                commits: 0,
                current: PlacedDirectory::new(),
                saved: Directory::new(),
            }),
            Err(Disk) => Err((device, CreateError::Disk)),
        }
    }

    /// Opens the file on a device. It begins with a `sync`, reads the selected area through a buffer of one block, and
    /// stores only the two directories in memory. Each error returns the device: `BadFile` with the offset of the first
    /// byte of the first field, in file order, that is cut or breaks its rule; `Disk` if the device fails; `Memory` if
    /// an allocation is refused.
    pub fn open(alloc: Global, mut device: D) -> Result<VmFile<D>, (D, OpenError)>
        ensures exact { D.medium.honest device → MatchResult result
            (λ file. file_at (D.medium.image device) ≡ Ok (file_of D.medium.image file))
            (λ e. IsRefused e.1 (file_at (D.medium.image device))) }
        ensures sure { IfOk result (λ file. file.sure ≡ true) }
        ensures durable { D.medium.honest device → IfOk result (λ file. Only (D.medium.image file.device) (D.medium.may_leave file.device)) }
        // `BadFile` and `Memory` come after the sync, so a stop then leaves what was read.
        ensures begins { MatchResult result
            (λ file. BeginsWithSync D.medium ⊥ device file.device)
            (λ e. BeginsWithSync D.medium (e.1 ≡ OpenError.Disk) device e.0) }
        // Nothing is written, so a stop meanwhile leaves what it might have left before.
        ensures reads { MatchResult result
            (λ file. ReadsOnly D.medium device file.device)
            (λ e. ReadsOnly D.medium device e.0) }
        ensures stopped { MatchResult result
            (λ file. LeavesAlike D.medium device file.device)
            (λ e. LeavesAlike D.medium device e.0) }
        ensures cause { MatchResult result
            (λ file. D.medium.failed file.device ≡ D.medium.failed device)
            (λ e. IsCaused (D.medium.failed device) (D.medium.failed e.0) e.1) }
    {
        match read_file(alloc, &mut device) {
            Ok(
                Opened {
                    area,
                    second,
                    current,
                    saved,
                },
            ) => Ok(VmFile {
                device,
                alloc,
                area,
                second,
                sure: true,
                commits: 0,
                current: PlacedDirectory::of(current),
                saved,
            }),
            Err(error) => Err((device, error)),
        }
    }

    /// Whether the file is sure of its committed pair. If it is not, a commit failed while it wrote
    /// the selector: a stop leaves the old pair or the new one. A file that is unsure refuses commits.
    pub fn is_sure(&self) -> bool
        ensures sure { result ≡ self.now.sure }
        ensures pair { ListsPair (pair_of D.medium.image self.now) self.now.current self.now.saved }
        // What `open` would find after a stop now.
        ensures stop { D.medium.honest self.now.device → (c : List ℕ) → D.medium.may_leave self.now.device c → Finds D.medium.image self.now c }
    {
        self.sure
    }

    /// The device returns bytes: numbers below 256.
    pub fn device_gives_bytes(&self)
        ensures { AreBytes (D.medium.image self.now.device) }
    {
        let _len = self.device.len();
    }

    /// The current directory of the pair that it keeps.
    pub fn current(&self) -> &Directory
        ensures same { result.now ≡ self.now.current }
        ensures lists { listed (pair_of D.medium.image self.now).cur ≡ result.now }
        ensures legal { is_directory result.now ≡ true }
    {
        self.current.directory()
    }

    /// The saved directory of the pair that it keeps.
    pub fn saved(&self) -> &Directory
        ensures same { result.now ≡ self.now.saved }
        ensures lists { listed (pair_of D.medium.image self.now).saved ≡ result.now }
        ensures legal { is_directory result.now ≡ true }
    {
        &self.saved
    }

    /// Reads the bytes of a block of the current directory directly into `into`, which is as long as its entry lists.
    /// `Disk` if the device fails, and then the contents of `into` are unknown, or if it returns bytes that are no heap
    /// with this handle.
    pub fn block(&mut self, handle: u16, into: &mut [u8]) -> Result<(), Disk>
        requires { HasBlock self.old.current handle (length into.old) }
        ensures bytes { D.medium.honest self.old.device
            → OnOk result (into.new ≡ bytes_of_block (pair_of D.medium.image self.old).cur.blocks handle) }
        ensures heap { OnOk result (IsHeapUnder handle into.new) }
        ensures no_block { CausesNoBlock D.medium handle (block_at self.old handle) self.old.device self.new.device into.new result }
        ensures same { self.new ≡ record self.old { device = self.new.device } }
        ensures pair { pair_of D.medium.image self.new ≡ pair_of D.medium.image self.old }
        ensures ok { OnOk result (D.medium.failed self.new.device ≡ D.medium.failed self.old.device) }
        ensures cause { D.medium.honest self.old.device → OnErr result (Rose (D.medium.failed self.old.device) (D.medium.failed self.new.device)) }
        ensures steadily { Steadily D.medium self.old self.new }
        // Nothing is written: a stop meanwhile, and one afterwards, leaves a file in which
        // `open` finds what it would have found.
        ensures reads { ReadsOnly D.medium self.old.device self.new.device }
        ensures any_moment { D.medium.honest self.old.device
            → Passes D.medium.may_have_left self.old.device self.new.device (Finds D.medium.image self.old) }
        ensures stopped { D.medium.honest self.old.device → (c : List ℕ) → D.medium.may_have_left self.old.device self.new.device c
            → Finds D.medium.image self.old c }
        ensures stop { D.medium.honest self.old.device → (c : List ℕ) → D.medium.may_leave self.new.device c → Finds D.medium.image self.old c }
    {
        let base = base_of(self.area, self.second);
        let at = base + 2 + u64::from(self.current.place(handle));
        read_block(&mut self.device, at, handle, into)
    }

    /// Reads the bytes of a block of the saved directory, as `block` reads a block of the current one.
    pub fn saved_block(&mut self, handle: u16, into: &mut [u8]) -> Result<(), Disk>
        requires { HasBlock self.old.saved handle (length into.old) }
        ensures bytes { D.medium.honest self.old.device
            → OnOk result (into.new ≡ bytes_of_block (pair_of D.medium.image self.old).saved.blocks handle) }
        ensures heap { OnOk result (IsHeapUnder handle into.new) }
        ensures no_block { CausesNoBlock D.medium handle (saved_block_at self.old handle) self.old.device self.new.device into.new result }
        ensures same { self.new ≡ record self.old { device = self.new.device } }
        ensures pair { pair_of D.medium.image self.new ≡ pair_of D.medium.image self.old }
        ensures ok { OnOk result (D.medium.failed self.new.device ≡ D.medium.failed self.old.device) }
        ensures cause { D.medium.honest self.old.device → OnErr result (Rose (D.medium.failed self.old.device) (D.medium.failed self.new.device)) }
        ensures steadily { Steadily D.medium self.old self.new }
        // Nothing is written: a stop meanwhile, and one afterwards, leaves a file in which
        // `open` finds what it would have found.
        ensures reads { ReadsOnly D.medium self.old.device self.new.device }
        ensures any_moment { D.medium.honest self.old.device
            → Passes D.medium.may_have_left self.old.device self.new.device (Finds D.medium.image self.old) }
        ensures stopped { D.medium.honest self.old.device → (c : List ℕ) → D.medium.may_have_left self.old.device self.new.device c
            → Finds D.medium.image self.old c }
        ensures stop { D.medium.honest self.old.device → (c : List ℕ) → D.medium.may_leave self.new.device c → Finds D.medium.image self.old c }
    {
        let base = base_of(self.area, self.second);
        let first = u64::from(directory_length(self.current.directory()));
        let at = base + first + 2 + u64::from(place_in(&self.saved.entries, handle));
        read_block(&mut self.device, at, handle, into)
    }

    /// Whether this directory may be committed with these blocks: it is legal, and each of its blocks is in memory as
    /// a heap with the listed length and handle or, if it is not in memory, in the current directory with that length.
    pub fn may_commit<S: Source>(&self, cur: &Directory, source: &S) -> bool
        ensures { IsTrue result ↔ MayCommit (S.resident_bytes source.now) self.now.current cur.now }
    {
        cur.is_legal() && are_there(source, self.current.directory(), &cur.entries)
    }

    /// Commits one of the pairs that `How` names. `source` has blocks that are in memory: a block
    /// of `cur` is taken from there if it is resident there, otherwise it is the one that the
    /// current directory has at that handle.
    ///
    /// The memory for the pair is allocated first, and released at the end. The pair's other blocks
    /// are read from the device. Then the pair's bytes are written to the area that is not selected,
    /// without those at both ends that this file wrote there before, and synced; then the selector is
    /// written and synced. A stop at any moment leaves a file in which `open` finds the previous pair
    /// or the new one.
    ///
    /// `Unsure` if the file is unsure, `TooBig` if it is sure and the pair is longer than
    /// the area, `Memory` if an allocation is refused: nothing has happened. `Disk` if
    /// the device fails, or a block that is read from a device which is not honest is no heap.
    /// The file is then sure of the previous pair or, if the device failed when the selector was
    /// written, unsure: `open` finds one of both pairs, and the file continues with the previous
    /// one.
    pub fn commit<S: Source>(
        &mut self,
        how: How,
        cur: &Directory,
        source: &S,
    ) -> Result<(), CommitError>
        requires { MayCommit (S.resident_bytes source.now) self.old.current cur.now }
        ensures { CommitsFile D.medium how (S.resident_bytes source.now) cur.now self.old self.new result }
    {
        if !self.sure {
            return Err(CommitError::Unsure);
        }
        let length = length_after(how, cur, &self.saved);
        if self.area < length {
            return Err(CommitError::TooBig);
        }
        let mut bytes = match Vec::with_capacity(self.alloc, length as usize) {
            Ok(bytes) => bytes,
            Err(_) => return Err(CommitError::Memory),
        };
        match self.spell(how, cur, source, &mut bytes) {
            Ok(()) => {}
            Err(Disk) => return Err(CommitError::Disk),
        }
        match self.select(how, cur, &bytes) {
            Ok(()) => Ok(()),
            Err(Disk) => Err(CommitError::Disk),
        }
    }

    /// Appends a directory: its blocks are those of the source if they
    /// are resident there, otherwise those of the current directory.
    fn spell_current<S: Source>(
        &mut self,
        cur: &Directory,
        source: &S,
        into: &mut Vec<u8>,
    ) -> Result<(), Disk>
        requires may { MayCommit (S.resident_bytes source.now) self.old.current cur.now }
        requires room { vec_len into.old + directory_length cur.now ≤ vec_capacity into.old }
        ensures items { D.medium.honest self.old.device → OnOk result (into.new.items ≡ into.old.items
            ++ contents_spelling (contents_from (S.resident_bytes source.now) (pair_of D.medium.image self.old).cur.blocks cur.now)) }
        ensures legal { D.medium.honest self.old.device
            → IsContentsOf cur.now (contents_from (S.resident_bytes source.now) (pair_of D.medium.image self.old).cur.blocks cur.now) }
        ensures len { OnOk result (vec_len into.new ≡ vec_len into.old + directory_length cur.now) }
        ensures room { vec_capacity into.old ≤ vec_capacity into.new }
        ensures read { ReadsFile D.medium self.old self.new result }
        ensures cause { D.medium.honest self.old.device → OnErr result (Rose (D.medium.failed self.old.device) (D.medium.failed self.new.device)) }
        ensures no_block { CausesNoBlocks D.medium (Contains cur.now.entries.items) self.old.device self.new.device result }
        ensures resident { AreResident (S.resident_bytes source.now) cur.now.entries.items → OnErr result ⊥ }
    {
        let from = base_of(self.area, self.second) + 2;
        let kept = Placed {
            directory: self.current.directory(),
            from,
        };
        spell_directory(&mut self.device, &kept, cur, source, into)
    }

    /// Appends the saved directory with its blocks.
    fn spell_saved(&mut self, into: &mut Vec<u8>) -> Result<(), Disk>
        requires room { vec_len into.old + directory_length self.old.saved ≤ vec_capacity into.old }
        ensures items { D.medium.honest self.old.device → OnOk result (into.new.items ≡ into.old.items
            ++ contents_spelling (pair_of D.medium.image self.old).saved) }
        ensures legal { D.medium.honest self.old.device → IsContentsOf self.old.saved (pair_of D.medium.image self.old).saved }
        ensures len { OnOk result (vec_len into.new ≡ vec_len into.old + directory_length self.old.saved) }
        ensures room { vec_capacity into.old ≤ vec_capacity into.new }
        ensures read { ReadsFile D.medium self.old self.new result }
        ensures cause { D.medium.honest self.old.device → OnErr result (Rose (D.medium.failed self.old.device) (D.medium.failed self.new.device)) }
        ensures no_block { CausesNoBlocks D.medium (Contains self.old.saved.entries.items) self.old.device self.new.device result }
        ensures no_read { self.old.saved.entries.items ≡ [] → OnErr result ⊥ }
    {
        let first = u64::from(directory_length(self.current.directory()));
        let from = base_of(self.area, self.second) + first + 2;
        let kept = Placed {
            directory: &self.saved,
            from,
        };
        spell_directory(&mut self.device, &kept, &self.saved, &Nothing, into)
    }

    /// Fills an empty buffer that has room for them with the bytes of the pair that a commit keeps.
    fn spell<S: Source>(
        &mut self,
        how: How,
        cur: &Directory,
        source: &S,
        into: &mut Vec<u8>,
    ) -> Result<(), Disk>
        requires may { MayCommit (S.resident_bytes source.now) self.old.current cur.now }
        requires empty { (into.old.items ≡ []) × (vec_len into.old ≡ 0) }
        requires room { length_after how cur.now self.old.saved ≤ vec_capacity into.old }
        ensures len { OnOk result (vec_len into.new ≡ length_after how cur.now self.old.saved) }
        ensures spelled { D.medium.honest self.old.device
            → OnOk result (Spells (current_after how cur.now self.old.saved) (saved_after how cur.now self.old.saved)
            (kept_after D.medium.image (S.resident_bytes source.now) how cur.now self.old) into.new.items) }
        ensures read { ReadsFile D.medium self.old self.new result }
        ensures cause { D.medium.honest self.old.device → OnErr result (Rose (D.medium.failed self.old.device) (D.medium.failed self.new.device)) }
        ensures no_block { CausesNoBlocks D.medium (IsKept how cur.now self.old.saved) self.old.device self.new.device result }
        ensures no_read { NeedsNoRead (S.resident_bytes source.now) how cur.now self.old.saved → OnErr result ⊥ }
    {
        match how {
            How::Update => match self.spell_current(cur, source, into) {
                Ok(()) => self.spell_saved(into),
                Err(Disk) => Err(Disk),
            },
            How::Save => match self.spell_current(cur, source, into) {
                Ok(()) => {
                    put_again(into);
                    Ok(())
                }
                Err(Disk) => Err(Disk),
            },
            How::Revert => match self.spell_saved(into) {
                Ok(()) => {
                    put_again(into);
                    Ok(())
                }
                Err(Disk) => Err(Disk),
            },
        }
    }

    /// Writes the area that is not selected, and then the selector: two device calls each.
    fn select(&mut self, how: How, cur: &Directory, bytes: &[u8]) -> Result<(), Disk>
        requires sure { self.old.sure ≡ true }
        requires legal { is_directory cur.now ≡ true }
        requires fits { (length bytes.now ≡ length_after how cur.now self.old.saved) × (length bytes.now ≤ self.old.area) }
        requires spelled { D.medium.honest self.old.device
            → Spells (current_after how cur.now self.old.saved) (saved_after how cur.now self.old.saved)
            (pair_in (current_after how cur.now self.old.saved) (saved_after how cur.now self.old.saved) bytes.now) bytes.now }
        ensures done { OnOk result (self.new ≡ record {
          device = self.new.device;
          area = self.old.area;
          second = not self.old.second;
          sure = true;
          current = current_after how cur.now self.old.saved;
          saved = saved_after how cur.now self.old.saved;
        }) }
        ensures kept { OnErr result (self.new ≡ record self.old { device = self.new.device; sure = self.new.sure }) }
        ensures pair { D.medium.honest self.old.device → MatchResult result
            (λ _. pair_of D.medium.image self.new
            ≡ pair_in (current_after how cur.now self.old.saved) (saved_after how cur.now self.old.saved) bytes.now)
            (λ _. pair_of D.medium.image self.new ≡ pair_of D.medium.image self.old) }
        ensures bytes { D.medium.honest self.old.device
            → OnOk result (D.medium.image self.new.device ≡ image_after D.medium.image bytes.now self.old) }
        ensures torn { D.medium.honest self.old.device
            → OnErr result (MayHaveWritten D.medium.image self.old self.new.sure (D.medium.image self.new.device)) }
        ensures other { D.medium.honest self.old.device → self.new.sure ≡ false
            → IsOther D.medium.image self.new
            (pair_in (current_after how cur.now self.old.saved) (saved_after how cur.now self.old.saved) bytes.now) }
        ensures either { D.medium.honest self.old.device
            → Passes D.medium.may_have_left self.old.device self.new.device (FindsEither D.medium.image self.old self.new) }
        ensures stop { D.medium.honest self.old.device → (c : List ℕ) → D.medium.may_leave self.new.device c → Finds D.medium.image self.new c }
        ensures honest { D.medium.honest self.old.device → D.medium.honest self.new.device }
        ensures was_honest { D.medium.honest self.new.device → D.medium.honest self.old.device }
        ensures cause { CausesDisk (D.medium.failed self.old.device) (D.medium.failed self.new.device) result }
        ensures once { FailedOnce (D.medium.failed self.old.device) (D.medium.failed self.new.device) }
        ensures steadily { Steadily D.medium self.old self.new }
    {
        let base = base_of(self.area, !self.second);
        match write_area(&mut self.device, base, bytes, self.commits >= 2) {
            Ok(()) => {}
            Err(Disk) => {
                self.commits = 0;
                return Err(Disk);
            }
        }
        let selector = [selector_of(!self.second)];
        match write_durably(&mut self.device, 512, &selector) {
            Ok(()) => {
                self.second = !self.second;
                self.commits = self.commits.saturating_add(1);
                go_on(&mut self.current, &mut self.saved, how, cur);
                Ok(())
            }
            Err(Disk) => {
                self.sure = false;
                self.commits = 0;
                Err(Disk)
            }
        }
    }

    /// The device.
    pub fn device(&self) -> &D
        ensures { result.now ≡ self.now.device }
    {
        &self.device
    }

    /// The device. Nothing is written.
    pub fn into_device(self) -> D
        ensures { result ≡ self.device }
    {
        let VmFile {
            device,
            alloc: _,
            area: _,
            second: _,
            sure: _,
            commits: _,
            current: _,
            saved: _,
        } = self;
        device
    }
}

impl<D: Noting + Drop> VmFile<D> {
    /// Takes it that what the device has noted was performed, and lasts.
    pub fn settle(&mut self)
        ensures same { self.new ≡ record self.old { device = self.new.device } }
        ensures rests { Rests D.medium self.old.device self.new.device }
        ensures failed { D.medium.failed self.new.device ≡ D.medium.failed self.old.device }
        ensures settled { D.settles self.old.device self.new.device }
    {
        self.device.settle();
    }
}
