//! Records that calls write into a buffer.

ghost use Rattle.std.specs.Prelude.{◌≡◌, ◌≤◌, length, OnOk};
ghost use Rattle.takhvoi.specs.Records.{overwritten, with_some};

use std::alloc::AllocError;

/// Appends a record, if there is one.
pub(crate) fn push_some<R: Copy>(records: &mut Vec<R>, found: Option<R>) -> Result<(), AllocError>
    ensures { OnOk result (records.new.items ≡ with_some records.old.items found) }
{
    if let Some(record) = found {
        records.push(record)?;
    }
    Ok(())
}

/// Writes records to the beginning of a buffer, as many as there is room for.
pub(crate) fn put_records<R: Copy>(records: &[R], into: &mut [R])
    ensures { into.new ≡ overwritten into.old records.now }
{
    let n = records.len().min(into.len());
    into[..n].copy_from_slice(&records[..n]);
}

/// Writes records like this, and counts all.
pub(crate) fn show<R: Copy>(records: &[R], into: &mut [R], count: &mut u32)
    requires { length records.now ≤ 4294967295 }
    ensures count { count.new ≡ length records.now }
    ensures written { into.new ≡ overwritten into.old records.now }
{
    put_records(records, into);
    *count = records.len() as u32;
}
