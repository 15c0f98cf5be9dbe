//! The words after the name of the program of tools, and what they ask for.
#![tactic(auto)]

mod usage;
mod words;

pub use usage::usage_line;
pub use words::{AirportTool, RunTool, Verb, asked_by};
