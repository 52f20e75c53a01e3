//! The parser of the script language: `parse` reads a line.
//!
//! It goes over the line from left to right, at most two tokens ahead of what it reads, and answers the
//! one statement that the line spells, that it is blank, or its first refusal. A text is copied out of the
//! line once, where its value is made. The grammar stands in docs/LANGUAGE.md, and as a definition in
//! `aria_model`'s `specs/Grammar.antt`.
#![tactic(auto)]

mod columns;
mod definition;
mod lexer;
mod number;
mod parser;
mod productions;
mod rows;
mod text;
mod token;
mod written;

pub use aria_model::{Statement, Stopped};
pub use parser::parse;

#[cfg(test)]
mod tests;
