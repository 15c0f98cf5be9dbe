//! The search for an arrival's route: from a node, or on from a step that was begun, to a node, or to any of some nodes.
#![tactic(auto)]

mod arriving;
mod cells;
mod joining;
mod onward;
mod starting;

pub use arriving::{arrive, arrive_to_one_of};
pub use joining::push_steps;
pub use onward::{Onward, arrive_onward};
pub use starting::Start;
