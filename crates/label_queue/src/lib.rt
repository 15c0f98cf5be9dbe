//! A map from labels to keys with its least, in room that is made once.
//!
//! Labels are numbers below a limit. A contract sees the key of each.
#![tactic(auto)]

mod entry;
mod heap;
mod queue;

pub use queue::LabelQueue;
