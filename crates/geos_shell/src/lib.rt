//! What the program `geos` has to do with its surroundings: the words of its command line and the
//! help that it gives, the standard streams, and files.
//!
//! It knows nothing of images, so that it is proved beside the crates that do, and not after them.
#![tactic(auto)]

mod answer;
mod asking;
mod colours;
mod command_line;
mod commands;
mod copying;
mod descriptors;
mod diffing;
mod dumping;
mod faults;
mod forms;
mod given;
mod help;
mod kept;
mod language;
mod locks;
mod making;
mod new_file;
mod numbers;
mod one_file;
mod output;
mod parts;
mod printable;
mod prompting;
mod reason;
mod replace;
mod reported;
mod request;
mod routines;
mod row_fields;
mod rules;
mod run_limits;
mod step_choice;
mod streams;
mod texts;
mod vm_files;
mod wrapping;

pub use answer::Answer;
pub use asking::requested;
pub use command_line::words;
pub use copying::CopyRequest;
pub use descriptors::keep_stream_numbers;
pub use diffing::DiffRequest;
pub use dumping::DumpRequest;
pub use forms::{Digits, EndCommit, OutputForm};
pub use language::{Language, TextPath};
pub use locks::{FileLock, Lockable, Sharing};
pub use making::New;
pub use new_file::NewFile;
pub use one_file::are_one_file_read;
pub use output::keep_from_output;
pub use printable::Named;
pub use prompting::ShellRequest;
pub use reason::Reason;
pub use reported::{Diagnosed, Reported, done_or_reported, report};
pub use request::{
    Asked, CallWords, ChunkPath, FileRequest, GetRequest, NewText, PagePaths, PutRequest, Reports,
    Request, RoutineRequest, Rows, TestRequest, TextRequest, TraceWords,
};
pub use row_fields::{Field, field_of};
pub use run_limits::{Room, RunLimits};
pub use step_choice::{Chunk, Condition, Line, Register, StepChoice, Test};
pub use streams::{STANDARD, StreamFault, print, print_lines, read, tell, tell_typist, write};
