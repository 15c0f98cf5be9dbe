//! The words after the program's name, and what they ask for.
#![tactic(auto)]

mod given;
mod traffic;
mod usage;
mod words;

pub use given::words_after_name;
pub use traffic::Traffic;
pub use usage::usage_line;
pub use words::{Verb, asked_by};
