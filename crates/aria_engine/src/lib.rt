//! The engine: tables that survive any crash, on which the lines of a script are executed.
//!
//! A `Store` holds the tables of a folder. `open` reads them from the folder's log, or tells what is damaged there.
//! `execute` executes one line: where it changes the tables, the line is in the log and on the disk before its reply is
//! told. At each moment a crash leaves the tables after some of the statements, among them each whose reply was told.
//!
//! A store that has answered a fault keeps it: each later call answers it and does nothing.
//!
//! An `Engine` is a store together with the reference to its host, for a program that embeds the tables. Its calls are
//! the store's, and `close` and `into_host` hand the reference back.
#![tactic(auto)]

mod changing;
mod complete;
mod engine;
mod execute;
mod open;
mod others;
mod outcome;
mod replay;
mod store;
mod tally;
mod turn;

pub use engine::Engine;
pub use outcome::Outcome;
pub use store::Store;

#[cfg(test)]
mod tests;
