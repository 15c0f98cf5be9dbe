//! The files of a call, read or begun in their order, and how a call ends: its status, the exit status that goes with it, and what
//! is written last.
#![tactic(auto)]

mod ending;
mod exit;
mod inputs;
mod last_line;
mod status;
mod stop;

pub use ending::{write_last, write_stop};
pub use exit::exit_code;
pub use inputs::{
    COMMANDS_LIMIT, CheckFiles, begin_commands, read_airport_file, read_check, read_inputs,
};
pub use last_line::{read_fault_line, too_large_line};
pub use status::Status;
pub use stop::Stop;
