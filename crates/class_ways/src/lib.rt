//! Where each class of aircraft can get to, whatever the traffic: a fact of the layout.
#![tactic(auto)]

mod course;
mod found;
pub mod laws;
mod met;
mod nodes;

pub use course::{Course, is_of};
pub use nodes::nodes_met;
