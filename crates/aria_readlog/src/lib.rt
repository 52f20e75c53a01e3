//! Tells what stands in the log of a folder.
//!
//! `display` finds the log, from its lowest file on, and tells a line for each record of each group, a line for each rest
//! that a crash left, and a last line that counts them. A `Listing` has the lines that aren't told yet, and tells them in
//! pieces; `Choice` says which of them are asked for. One group is in memory at a time. Nothing is changed.
//!
//! docs/TOOLS.md has the lines and what they mean. `specs/Line.antt` says how each is spelled, and `specs/Display.antt`
//! which of them are told of a folder, and which answer it gets.
#![tactic(auto)]

mod choice;
mod displaying;
mod line;
mod listing;
mod looking;
mod start;

pub use choice::Choice;
pub use displaying::display;

#[cfg(test)]
mod tests;
