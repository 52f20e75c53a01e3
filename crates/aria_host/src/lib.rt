//! The outside of the program: the folder that it works in, what it tells, and what it reads.
//!
//! `Host` is the folder and the two output streams, `Source` the input. Each is a trait, so that every layer above is
//! proved over whatever stands behind it. Its clauses say what a call does to the folder as it reads, which images a
//! crash at any moment may leave, and which answer has which cause. A `Fault` is what went wrong outside, or want of
//! memory.
//!
//! `DirHost` and `StdSource` are the current folder and the standard streams: they tell no contents, and what the system
//! keeps is trusted. `MemHost` and `MemSource` stand in memory, for tests. A `MemHost` is the record of its changes, and
//! `crash` leaves the image that the given fates pick.
#![tactic(auto)]

mod fault;
mod file_name;
mod host;
mod memory;
mod real;
mod source;

pub use fault::Fault;
pub use file_name::FileName;
pub use host::{Extent, Host, MAX_PAGES, Stream};
pub use memory::{Fate, MemHost, MemSource};
pub use real::{DirHost, StdSource};
pub use source::Source;

#[cfg(test)]
mod tests;
