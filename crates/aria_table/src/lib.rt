//! Tables: rows with the entries of their keys, and what takes each change of them back (docs/ARCHITECTURE.md).
//!
//! `Table::read` reads a table from its header. Inside are the steps of which each change of a row is made, each a group of the
//! log of its own (`specs/Step.antt`), the undoing of those that put something, and what refuses a row before anything is
//! changed (`specs/Refusing.antt`); the calls on whole rows aren't there yet.
//!
//! `specs/Content.antt` says what a table holds and what it is without the last change of it, `specs/Sound.antt` what a table
//! may hold, and `specs/Trace.antt` what groups of the log make of tables, and what these hold
//! once the pending changes are taken back. `proofs/Undoing.antt` shows that each of the four changes is taken back by its
//! record, `proofs/Tracing.antt` that each front of the groups of changes holds what was there before them.
#![tactic(auto)]

mod counting;
mod layout;
mod refusing;
mod row_check;
mod row_entries;
mod steps;
mod table;
mod taking_back;

pub use layout::ROWS_AT;
pub use table::Table;
