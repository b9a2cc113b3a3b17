//! VM files of the system for the program `geos`: they are made, opened under their lock, copied, checked, compared and shown.
//!
//! It knows nothing of images, so that it is proved beside the crates that do.
#![tactic(auto)]

mod checked;
mod compared;
mod copies;
mod fault;
mod files;
mod shown;

pub use checked::{check_file, is_vm_file};
pub use compared::compare_files;
pub use copies::copy_file;
pub use fault::FileFault;
pub use files::{Locked, lock_to_read, make_file, opened, wait_for};
pub use shown::{draw_file, make_page, print_file};
