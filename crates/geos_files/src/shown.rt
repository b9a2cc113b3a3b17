//! VM files are printed and drawn.

ghost use Rattle.geos_shell.specs.Limits.{IsWidth};

use crate::fault::FileFault;
use crate::files::{Locked, lock_to_read, opened};
use geos_dump::{Detail, DumpError, LEAST_WIDTH, View, dump, map, read_areas};
use geos_pages::{Subject, html};
use geos_shell::{PagePaths, print, write};

/// What a view has of a VM file, as text. The lock is released before the text is printed: its reader may open the file next.
pub(crate) fn text_of_file<'a>(
    rt: &HostRuntime,
    path: &'a str,
    view: View,
) -> Result<Vec<u8>, FileFault<'a>> {
    let Locked {
        device,
        lock: _lock,
    } = lock_to_read(rt, path)?;
    let mut file = opened(rt, path, device)?;
    Ok(dump(rt.alloc(), &mut file, view)?)
}

/// Prints what a view has of a VM file.
///
/// `FileFault::NoBlock` or `FileFault::NoChunk` if it has a block or a chunk that is not there.
pub fn print_file<'a>(rt: &HostRuntime, path: &'a str, view: View) -> Result<(), FileFault<'a>> {
    let text = text_of_file(rt, path, view)?;
    match (view.block, view.chunk) {
        (Some(h), Some(c)) if text.is_empty() => Err(FileFault::NoChunk(path, h, c)),
        (Some(h), None) if text.is_empty() => Err(FileFault::NoBlock(path, h)),
        _ => Ok(print(rt, &text)?),
    }
}

/// A VM file in so many columns. Its lock is let go before it is printed, as for `text_of_file`.
fn map_of_file<'a>(rt: &HostRuntime, path: &'a str, width: u32) -> Result<Vec<u8>, FileFault<'a>>
    requires { IsWidth width }
{
    let Locked {
        mut device,
        lock: _lock,
    } = lock_to_read(rt, path)?;
    let areas = read_areas(&mut device);
    // If the areas were not read, it may be no VM file: that is reported first.
    let mut file = opened(rt, path, device)?;
    let areas = areas.map_err(DumpError::from)?;
    Ok(map(rt.alloc(), &mut file, areas, width as u16)?)
}

/// Draws a VM file in `width` columns.
pub fn draw_file<'a>(rt: &HostRuntime, path: &'a str, width: u32) -> Result<(), FileFault<'a>>
    requires { IsWidth width }
{
    let text = map_of_file(rt, path, width)?;
    Ok(print(rt, &text)?)
}

/// The page of a VM file, with its drawing, its blocks and their bytes. Its lock is let go as for `text_of_file`.
fn page_of_file<'a>(rt: &HostRuntime, path: &'a str) -> Result<Vec<u8>, FileFault<'a>> {
    let alloc = rt.alloc();
    let Locked {
        mut device,
        lock: _lock,
    } = lock_to_read(rt, path)?;
    let areas = read_areas(&mut device);
    let mut file = opened(rt, path, device)?;
    let areas = areas.map_err(DumpError::from)?;
    let drawing = map(alloc, &mut file, areas, LEAST_WIDTH)?;
    let whole = View {
        detail: Detail::WholeObjects,
        short: false,
        side: None,
        block: None,
        chunk: None,
    };
    let objects = dump(alloc, &mut file, whole)?;
    let made = html(alloc, Subject::File, path, &drawing, &objects);
    Ok(made.map_err(DumpError::from)?)
}

/// Writes a page of a VM file.
pub fn make_page<'a>(rt: &HostRuntime, paths: PagePaths<'a>) -> Result<(), FileFault<'a>> {
    let made = page_of_file(rt, paths.shown)?;
    Ok(write(rt, paths.page, &made, paths.shown)?)
}
