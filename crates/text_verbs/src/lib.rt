//! The verbs that turn one text into another: an airport file into its canonical text, and a schedule into commands.
#![tactic(auto)]

mod importing;
mod last_line;
mod migrating;

pub use importing::import;
pub use migrating::migrate;
