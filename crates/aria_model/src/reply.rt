use crate::refusal::Refusal;

/// What is told at the end of a statement.
#[derive(Clone, Copy, Debug)]
pub enum Reply {
    Done,
    /// How many rows the statement concerned.
    Count(u64),
    No(Refusal),
}
