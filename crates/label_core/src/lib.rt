//! Quickest walks over cells, each a piece of the ground with a time window: the definitions, and the laws that the
//! searches and the checker stand on. There is no search here.
#![tactic(auto)]

mod backward;
mod forward;

pub use backward::{
    a_closed_backward_table_leaves_no_walk_out, the_mirror_turns_latest_entries_round,
};
pub use forward::{
    a_closed_table_leaves_no_walk_out, attained_and_closed_is_exact, picked_steps_are_a_walk,
};
