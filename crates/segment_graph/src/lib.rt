//! Arcs, turns and neighbours of an airport's taxiway segments.
#![tactic(auto)]

mod builder;
mod graph;
mod links;
mod tables;

pub use builder::GraphBuilder;
pub use graph::Graph;
