//! Which refusal is due to a command, over the flights and work parties in force as plain data.
#![tactic(auto)]

mod again;
mod asked;
mod batch;
mod choice;
mod faults;
mod filed;
mod holder;
mod late;
mod shut;
mod taken;

pub use again::{divert_refused, reroute_refused};
pub use asked::{named_arrival, named_departure};
pub use batch::{NamedBatch, named_batch};
pub use choice::{NamedAny, named_arrival_any, named_departure_any};
pub use filed::{Due, find_due};
pub use late::late_refused;
pub use shut::{hold_fault, named_party};
