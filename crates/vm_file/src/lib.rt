//! VM files: blocks with lasting handles, on a device that may lose its last writes if it stops.
//!
//! A file has two areas, and a selector that names one of them; an area holds two directories
//! with their blocks, the current one and the saved one. docs/FILES.md has the layout and says
//! what a stop leaves. (GEOS SDK Concepts Book, chapter Virtual Memory.)
#![tactic(auto)]

mod changes;
mod commit;
mod create;
mod device;
mod directory;
mod disk_file;
mod entries;
mod error;
mod faulty;
mod fields;
mod file;
mod law;
mod memory;
mod opened;
mod places;
mod reader;
mod spell;

pub use commit::{How, Source};
pub use create::device_length;
pub use device::{Device, Disk, Noting};
pub use directory::{Directory, Entry, GROUP_UID, MOST_BLOCKS};
pub use disk_file::FileDevice;
pub use error::{CommitError, CreateError, OpenError};
pub use faulty::FaultDevice;
pub use file::VmFile;
pub use law::pairs_have_one_spelling;
pub use memory::MemoryDevice;
