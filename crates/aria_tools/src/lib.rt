//! The program `aria` as a call: `aria` carries out one command line over a host and an input.
//!
//! `WordList` holds the words of the command line and `Ended` says how the command ended. The one
//! command is `run`, which executes the script that it reads from the input. A `Status` has the code
//! that the program exits with, and the line on standard error.
#![tactic(auto)]

mod command;
mod ending;
mod read_log;
mod reading;
mod run_script;
mod session;
mod status;
mod stop;
mod words;

pub use command::aria;
pub use ending::Ended;
pub use status::Status;
pub use words::{Command, WordList};

#[cfg(test)]
mod tests;
