//! Answers the lines of a session.

ghost use Rattle.geos_shell.specs.Limits.{IsRegion};

use crate::json::done;
use crate::requests::{ran, runnable};
use geos_prompt::{Place, shell};
use geos_shell::{Language, Reported, Reports, ShellRequest, StreamFault};
use geos_texts::{Runnable, TextFault};

/// The text of a session without a text or an image: it has no routine that can be called.
const NO_ROUTINES: &[u8] = b"routine none budget 1\n RET\n";

/// Reads the routines of a session.
fn prompted<'a>(
    rt: &HostRuntime,
    reports: Reports,
    image: Option<&'a str>,
    language: Language,
) -> Result<Runnable<'a>, Reported> {
    if let Some(path) = image {
        return runnable(rt, reports, language.at(path));
    }
    let made = match Vec::from_slice(rt.alloc(), NO_ROUTINES) {
        Ok(text) => Runnable::of(rt.alloc(), Language::Assembly.at(""), text),
        Err(_) => Err(TextFault::Stream(StreamFault::Memory)),
    };
    done(rt, reports, made)
}

/// Answers lines as the request asks. Lines that are wrong were reported.
pub(crate) fn answer_lines(
    rt: &HostRuntime,
    reports: Reports,
    request: &ShellRequest<'_>,
    language: Language,
) -> Result<(), Reported>
    requires { IsRegion request.now.region }
{
    let routines = prompted(rt, reports, request.image, language)?;
    let place = Place {
        file: request.file,
        journal: request.journal,
        region: request.region,
    };
    let ended = shell(rt, reports, &routines, &place);
    if ran(rt, reports, ended, &routines)? {
        Ok(())
    } else {
        Err(Reported)
    }
}
