//! What the program means, apart from how it is done: statements, refusals and replies as types, and in
//! `specs/` the definitions that every theorem speaks of.
//!
//! `specs/Token.antt` and `specs/Grammar.antt` say which statement a line spells, `specs/World.antt` what
//! tables hold, `specs/Step.antt` what a statement does to them and what it answers, `specs/Text.antt` how
//! answers are spelled, `specs/Script.antt` what a whole script leaves and tells, and `specs/Journal.antt`
//! which lines change the tables.
#![tactic(auto)]

mod refusal;
mod reply;
mod statement;
mod stopped;
mod text;

pub use refusal::{Exception, Met, Refusal, Which};
pub use reply::Reply;
pub use statement::{MAX_LINE_BYTES, MAX_STATEMENT_ROWS, Setting, Statement};
pub use stopped::Stopped;
pub use text::{push_reply_text, push_row_text, reply_text, row_text};

#[cfg(test)]
mod tests;
