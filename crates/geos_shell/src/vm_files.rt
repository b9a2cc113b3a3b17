//! Requests on VM files.

ghost use Rattle.std.specs.Prelude.{IfSome};
ghost use Rattle.geos_shell.specs.Limits.{IsRegion, IsWidth, WorksWithinLimits};

use crate::copying::copy_of;
use crate::diffing::diff_of;
use crate::dumping::dump_of;
use crate::given::Given;
use crate::making::New;
use crate::numbers::{AREA, REGION, WIDTH};
use crate::request::{ChunkPath, FileRequest, GetRequest, PagePaths, PutRequest, Rows};

/// The chunk that a `put` or a `get` names.
fn chunk_of<'a>(given: &Given<'_, 'a>) -> ChunkPath<'a> {
    ChunkPath {
        file: given.word("FILE"),
        handle: given.short("H"),
        chunk: given.short("C"),
        item: given.flag("item"),
    }
}

/// Rows with the requested fields.
fn rows_of<'a>(given: &Given<'_, 'a>, path: &'a str) -> Rows<'a> {
    Rows {
        path,
        fields: given.setting("fields"),
    }
}

/// The request of a `put`.
fn put_of<'a>(given: &Given<'_, 'a>) -> PutRequest<'a>
    ensures { IsRegion result.region }
{
    PutRequest {
        chunk: chunk_of(given),
        at: given.short_if_any("AT"),
        new: New::of(given),
        array: match given.setting("array") {
            Some(path) => Some(rows_of(given, path)),
            None => None,
        },
        region: given.number(&REGION),
    }
}

/// The request of a `get`.
fn get_of<'a>(given: &Given<'_, 'a>) -> GetRequest<'a>
    ensures { IsRegion result.region }
{
    GetRequest {
        chunk: chunk_of(given),
        array: if given.flag("array") {
            Some(rows_of(given, ""))
        } else {
            None
        },
        region: given.number(&REGION),
    }
}

/// The columns of a drawing: those of the terminal, unless a number is given or they are no width.
fn width_of(given: &Given<'_, '_>) -> u32
    ensures { IsWidth result }
{
    match given.columns {
        Some(columns) if !given.has("width") && WIDTH.least <= columns && columns <= WIDTH.most => {
            columns
        }
        _ => given.number(&WIDTH),
    }
}

/// The request of a `map`.
fn map_of<'a>(given: &Given<'_, 'a>) -> FileRequest<'a>
    ensures { WorksWithinLimits result }
{
    let file = given.word("FILE");
    match given.setting("html") {
        Some(page) => FileRequest::Page(PagePaths { shown: file, page }),
        None => FileRequest::Map {
            file,
            width: width_of(given),
        },
    }
}

/// The request of the words after the name of a command, if it is one on VM files.
pub(crate) fn file_request<'a>(name: &str, given: &Given<'_, 'a>) -> Option<FileRequest<'a>>
    ensures { IfSome result WorksWithinLimits }
{
    match name {
        "new" => Some(FileRequest::New {
            area: given.number(&AREA),
            file: given.word("FILE"),
        }),
        "copy" => Some(FileRequest::Copy(copy_of(given))),
        "put" => Some(FileRequest::Put(put_of(given))),
        "get" => Some(FileRequest::Get(get_of(given))),
        "dump" => Some(FileRequest::Dump(dump_of(given))),
        "diff" => Some(FileRequest::Diff(diff_of(given))),
        "map" => Some(map_of(given)),
        _ => None,
    }
}
