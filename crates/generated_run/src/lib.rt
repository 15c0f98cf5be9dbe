//! A made input of any size: its commands answered, each reply read back and checked, and what came of them counted.
#![tactic(auto)]

mod answering;
mod laws;
mod run;
mod summary;

pub use laws::summaries_are_one;
pub use run::{made_airport, run_generated};
pub use summary::Summary;
