//! An airport written as a graph in DOT.
#![tactic(auto)]

mod edge;
mod pieces;
mod write;

pub use write::write_graph;
