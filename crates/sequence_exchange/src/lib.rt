//! New flights served one after the other, in the order in which the exchange of neighbours ends.
#![tactic(auto)]

mod costs;
mod order;
mod routing;
mod sequencing;
mod serving;

pub use routing::{find_route, second_of};
pub use sequencing::{Sequenced, sequence, undo};
