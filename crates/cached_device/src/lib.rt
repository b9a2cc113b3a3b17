//! A device that behaves like a disk: a write is durable only after a `sync` has succeeded. A
//! stop before that leaves in each written part the old bytes, the new bytes, or anything else.
//!
//! It shows that the trait of devices fits such disks, and not only memory: this device is honest, and is
//! proved to satisfy the clauses of the trait. Trials stop it at every call, and choose what each part becomes.
#![tactic(auto)]

mod device;
mod event;
mod part;

pub use device::CachedDevice;
pub use part::Part;
