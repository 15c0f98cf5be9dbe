//! The plan: the steps and work parties in force as a table, each with how much later it could end.
#![tactic(auto)]

mod laws;
mod row;
mod row_text;
mod slack;
mod table;

pub use laws::plans_are_one;
pub use table::write_plan;
