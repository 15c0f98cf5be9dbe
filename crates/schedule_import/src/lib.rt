//! A day's schedule with civil times, turned into commands.
#![tactic(auto)]

mod answer;
mod import;
mod laws;
mod row;

pub use import::{ScheduleRefused, import_schedule};
pub use laws::each_accepted_row_is_one_command;
