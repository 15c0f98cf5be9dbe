//! What a run over command lines is, who answers its lines and checks their blocks, and the transcript that is written of it.
#![tactic(auto)]

mod block_checker;
mod last_line;
mod laws;
mod refused;
mod router;

pub use block_checker::BlockChecker;
pub use last_line::done_line;
pub use laws::supplied_runs_are_one;
pub use refused::CheckRefused;
pub use router::Router;
