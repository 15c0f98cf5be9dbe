//! Callers of `taxi_io` whose contracts follow from its own, and a test that a write is flushed.
#![tactic(auto)]

mod callers;
#[cfg(test)]
mod tests;

pub use callers::{read_both, read_steady, read_told, write_both};
