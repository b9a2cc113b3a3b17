//! The kernel, and routines that a verifier has checked, for programs in C: a static library, whose header is `library/takhvoi.h`.
//!
//! A caller has a `Handle`, all zeros at first, and passes its address to each call. A call returns 0 if it is done, the number of the
//! refusal if the kernel refuses, and a number of `status` if the library does. It takes any handle, number and length: no function
//! requires anything.
#![tactic(auto)]

mod access;
mod arrays;
mod blocks;
mod chunks;
mod entries;
mod explains;
mod findings;
mod grants;
mod handle;
mod held;
mod images;
mod items;
mod journal;
mod kernels;
mod lists;
mod looks;
mod loose;
mod places;
mod records;
mod routines;
mod sources;
mod status;
mod system;
mod texts;
mod traces;
mod vm;
