//! The control file: one page that names the log's last checkpoint, and the place in the log where redo starts.
//!
//! `read` says what a folder's control file is: `Fresh` where nothing is there yet, or `Kept` with the `Control` that its
//! page names. One that is missing, foreign or damaged is a `Fault`. `write` puts a control on the page and brings it to
//! the disk. At each moment a crash leaves the page as it was or the new one, and no other file is touched. The caller
//! makes the file: `write` asks that it is there.
//!
//! docs/FORMATS.md has the page and what it means, in "The control file".
#![tactic(auto)]

mod control;
mod found;
mod reading;
mod writing;

pub use control::Control;
pub use found::Found;
pub use reading::read;
pub use writing::write;

#[cfg(test)]
mod tests;
