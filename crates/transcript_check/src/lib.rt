//! Transcripts read block by block and checked, by no code of the searches.
#![tactic(auto)]

mod checking;
mod failure;
mod laws;
mod not_passed;

pub use checking::{Verdict, check_transcript};
pub use failure::Failure;
pub use laws::transcripts_have_one_verdict;
