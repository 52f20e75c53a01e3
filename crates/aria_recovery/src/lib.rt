//! What the groups of the log make of a folder.
//!
//! Contracts above this crate speak of its definitions. `specs/Redo.antt` says what the groups make of a page,
//! `specs/Tables.antt` to which tables a folder comes, `specs/Images.antt` what a crash leaves of them,
//! `specs/Moves.antt` what a call may do, `specs/Frames.antt` what memory holds of pages, and
//! `specs/Pending.antt` which undo records are pending.
//!
//! `Analysis` is one pass over the groups, before their edits are made again: for each table it knows the last
//! group that made or dropped its files and the last group behind that which edits each page, and it knows the
//! pending undo records.
#![tactic(auto)]

mod analysis;
mod chain;
mod edited;
mod life;
mod link;
mod lives;

pub use analysis::Analysis;
pub use life::Told;

#[cfg(test)]
mod tests;
