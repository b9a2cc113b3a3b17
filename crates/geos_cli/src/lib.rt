//! Sessions: an image in hexadecimal digits, a line `end`, and a script of commands, which is run
//! on the image.
//!
//! | Module | Has |
//! |---|---|
//! | `session` | `run_session`: reads a session to its end, and runs it |
//! | `law` | `other_calls_keep`: calls that may not commit leave the contents of the device unchanged; `plain_scripts_do_the_same` |
//! | `lending` | runs a routine on blocks that it borrows, which are locked for it |
//! | `script` | `run_script`, `run_script_in_mode`: carry out the commands of a script, and print what calls output |
//! | `call` | `run_call`: carries out one call, which words name |
//! | `bytes` | `put_bytes`, `get_bytes`: write and read a chunk or an item |
//! | `progress` | `Progress`: the commands of a script, one after another, printed in a form |
//! | `in_form` | `run_script_in_form`, `run_call_in_form`: the same, printed in a form |
//! | `traced` | `trace_call`, `trace_call_watched`, `trace_lent`: one call, of whose steps notes are taken |
//! | `with_names` | `run_script_with_names`: carries out a script whose lines write names |
#![tactic(auto)]

mod bytes;
mod call;
mod in_form;
mod law;
mod lending;
mod progress;
mod script;
mod session;
mod traced;
mod with_names;

pub use crate::bytes::{Place, get_bytes, put_bytes};
pub use crate::call::run_call;
pub use crate::in_form::{RunOptions, run_call_in_form, run_script_in_form};
pub use crate::law::{other_calls_keep, plain_scripts_do_the_same};
pub use crate::progress::Progress;
pub use crate::script::{Mode, RefusedCommand, run_script, run_script_in_mode};
pub use crate::session::run_session;
pub use crate::traced::{
    NotedCall, TraceFault, TracedCall, trace_call, trace_call_watched, trace_lent,
};
pub use crate::with_names::{EarlyEnd, run_script_with_names};
pub use geos_input::{Counted, MOST_BYTES, ScriptFault};
pub use geos_machine::{Follow, Unwatched, Watch};
pub use script_commands::{CallFault, Form, Writing};
