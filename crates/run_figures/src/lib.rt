//! The figures of a run: how often each kind of reply came, and what the holders in force at its end come to.
#![tactic(auto)]

mod busy;
mod counting;
mod flights;
pub mod laws;
mod line;
mod text;
mod words;

pub use counting::{Count, ReplyCounts};
pub use text::write_figures;
