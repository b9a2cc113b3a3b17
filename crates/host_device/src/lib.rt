//! A device in memory that notes its calls, for a host to perform them on a file.
#![tactic(auto)]

mod device;
mod log;
mod record;
mod step;

pub use device::HostDevice;
pub use step::Step;
