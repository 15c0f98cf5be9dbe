//! A run over the commands of a file, each of which is answered as soon as its line has ended.
#![tactic(auto)]

mod answering;
mod before;
mod halting;
mod kept;
pub mod laws;
mod refused;
mod telling;

pub use answering::run_commands;
pub use before::{answer_with_memory, run_before};
pub use halting::write_halt;
pub use kept::{Keeper, run_kept};
pub use refused::RunRefused;
pub use telling::{Teller, run_told};
