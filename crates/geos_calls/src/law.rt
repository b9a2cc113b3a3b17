//! Lemmas on the table of calls.

ghost use Rattle.geos_calls.specs.Keeping.{RowsKeepMemory};
ghost use Rattle.geos_calls.specs.Leaving.{RowsLeave};

/// Each row of the table of calls preserves legal memory, if the call succeeds and if it is refused, whatever is
/// refused from outside.
///
/// Legal memory has 1,024 handles. The size of each block is a multiple of 16 from 64 to 65,520, and has room for the
/// block's chunks. The table of a block has an even number of entries, at least two. Chunks are of bytes. No lock
/// count is above 65,535.
///
/// The same holds of the current, the saved and the committed directories of the VM file. Their user IDs are words,
/// and their maps name a block that is no group, and a group. (GEOS SDK Concepts Book, chapters Memory Management,
/// Local Memory and Virtual Memory.)
pub fn rows_keep_memory()
    ensures { RowsKeepMemory }
{}

/// What each row of the table of calls leaves unchanged. A refusal leaves memory unchanged, except that of a commit whose device failed
/// late: then the device may also hold the pair that was to be committed. A row makes the same references stale whether it is done or
/// refused. A row leaves every block unchanged that it does not name. It leaves what is mapped, unless it maps something different, frees
/// what is mapped, or reverts to the saved directory. It leaves the saved directory, unless it saves; the contents of the device, unless
/// it commits; and the length of the file's areas. If it is done, lock counts and marks are as `Leaving` has them: at most one count
/// changes, since a commit requires that no block of the file is locked; and an update or a save leaves each block of the file unchanged
/// except for its mark. (GEOS SDK Concepts Book, chapters Memory Management, Virtual Memory and Database Library.)
pub fn rows_leave()
    ensures { RowsLeave }
{}
