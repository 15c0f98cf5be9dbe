//! Asking what if: what a request and the line that takes it back leave behind.
#![tactic(auto)]

mod laws;

pub use laws::asking_and_cancelling_changes_nothing;
