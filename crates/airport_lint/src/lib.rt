//! What is odd about an airport: what can't be meant, and what makes no difference.
#![tactic(auto)]

mod advice;
mod judge;
pub mod laws;
mod seconds;
mod sets;
mod tell;
mod text;
mod ways;

pub use advice::Advice;
pub use text::write_advice;
