//! One routine is run, and a page shows its steps.

ghost use Rattle.vm_blocks.specs.Listed.{NoneLocked};

use crate::choosing::Chosen;
use crate::fault::RunFault;
use crate::printing::{print_made, write_made};
use crate::tracing::{Traceable, budget_of, noted_call, refused_text, text_of, trace_fault};
use geos_cli::{TracedCall, trace_call_watched};
use geos_kernel::Kernel;
use geos_shell::TraceWords;
use geos_trace::{MOST_STEPS, Notes, Told, html};
use std::alloc::{AllocError, Global};
use vm_file::Device;

/// What a page shows of a text or an image.
#[derive(Clone, Copy)]
pub struct Shown<'a> {
    /// Its path.
    pub path: &'a str,
    /// Its lines with what is known at each instruction.
    pub explained: &'a [u8],
    /// Whether they are lines of a text, and not of the listing of an image.
    pub of_text: bool,
}

/// The page of a call that was traced.
fn page_of(
    alloc: Global,
    words: &TraceWords<'_>,
    traceable: &Traceable<'_>,
    shown: &Shown<'_>,
    traced: &TracedCall,
    notes: &Notes,
) -> Result<Vec<u8>, AllocError> {
    let origins = if shown.of_text {
        traceable.origins
    } else {
        None
    };
    let text = text_of(alloc, words, origins, traced, &Chosen::all())?;
    let told = Told {
        file: shown.path,
        name: words.call.name,
        words: words.call.words.as_slice(),
        explained: shown.explained,
        is_text: shown.of_text,
        traced: &text,
        budget: budget_of(traced.checked.image(), traced.routine),
    };
    html(alloc, &told, &traced.outcome, notes)
}

/// Runs it on a kernel of whose VM file no block is locked, and writes the page to the path `out`. If a block cannot be lent, no page is
/// written, and the refusal is printed.
pub(crate) fn page_on<'a, D: Device + Drop>(
    rt: &HostRuntime,
    words: &TraceWords<'a>,
    traceable: &Traceable<'_>,
    shown: &Shown<'_>,
    out: &'a str,
    kernel: &mut Kernel<D>,
) -> Result<(), RunFault<'a>>
    requires { NoneLocked kernel.old.core.blocks }
{
    let alloc = rt.alloc();
    let last = words.steps.min(words.skipped.saturating_add(MOST_STEPS));
    let mut notes = Notes::new(alloc, words.skipped, last);
    let noted = noted_call(words, traceable.image, last as usize);
    match trace_call_watched(alloc, &noted, kernel, &mut notes) {
        Ok(Ok(traced)) => {
            let page = page_of(alloc, words, traceable, shown, &traced, &notes);
            write_made(rt, out, page, shown.path)
        }
        Ok(Err(refusal)) => print_made(rt, refused_text(alloc, refusal.number())),
        Err(fault) => Err(trace_fault(&words.call, words.only, fault)),
    }
}
