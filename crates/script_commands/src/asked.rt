//! Which calls the machine admits.

ghost use Rattle.std.specs.Prelude.{◌≡◌};
ghost use Rattle.geos_verify.specs.Lists.{all2};
ghost use Rattle.script_commands.specs.Lines.{if_admitted, is_placed, may_ask};

use crate::command::Call;
use geos_image::SlotState;
use geos_verify::{Checked, admits_words};

/// Whether a handle stands for the slot, or 0 if it is not borrowed.
fn is_placed(state: SlotState, h: u16) -> bool
    ensures { result ≡ is_placed state h }
{
    !state.is_own() || h == 0
}

fn are_placed(states: &[SlotState; 4], handles: &[u16; 4]) -> bool
    ensures { result ≡ all2 is_placed states.now handles.now }
{
    let [s0, s1, s2, s3] = *states;
    let [h0, h1, h2, h3] = *handles;
    is_placed(s0, h0) & is_placed(s1, h1) & is_placed(s2, h2) & is_placed(s3, h3)
}

/// Whether the machine admits the call, and exactly the borrowed slots have handles.
pub(crate) fn may_ask(checked: &Checked, call: &Call) -> bool
    ensures { result ≡ may_ask checked.now call.now }
{
    if !admits_words(checked, call.routine, &call.words) {
        return false;
    }
    are_placed(
        &checked.image().routine(call.routine).entry.slots,
        &call.handles,
    )
}

/// The call, if the machine admits it.
pub(crate) fn if_admitted(checked: &Checked, call: Call) -> Option<Call>
    ensures { result ≡ if_admitted checked.now call }
{
    if may_ask(checked, &call) {
        Some(call)
    } else {
        None
    }
}
