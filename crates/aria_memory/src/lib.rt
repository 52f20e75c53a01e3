//! Tables in memory: the plain program that does what the definitions say.
//!
//! `Tables` holds the tables of a world and executes statements on them. A statement takes the time of the
//! rows that it concerns and a logarithm for each; one by another key than the first goes over the whole
//! table besides. Nothing is kept when it is dropped.
#![tactic(auto)]

mod check;
mod find;
mod insert;
mod limits;
mod row_key;
mod settings;
mod table;
mod tables;
mod update;

pub use tables::Tables;

#[cfg(test)]
mod tests;
