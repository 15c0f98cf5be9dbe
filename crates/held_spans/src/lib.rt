//! The spans for which segments are held, by their segment, and by whom.
#![tactic(auto)]

mod holds;
mod names;
mod segment_spans;
mod spans;

pub use holds::HoldsOf;
pub use names::first_name;
pub use spans::HeldSpans;
