//! Tests of `aria_key`'s trees, over pages in memory. They stand in a crate of their own, which has no code, since the tests
//! of a crate are proved together with all of its functions.
#![tactic(auto)]

#[cfg(test)]
mod tests;
