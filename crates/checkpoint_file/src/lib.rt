//! What is in force as a command file, which brings it back when it is routed.
#![tactic(auto)]

mod laws;
mod words;
mod write;

pub use laws::checkpoints_restore_what_is_in_force;
pub use write::write_checkpoint;
