//! A segment's free windows in a doubly linked list whose links lie in the nodes.
#![tactic(auto)]

mod blocks;
mod chain;
mod edits;
mod iter;
mod list;
mod lone;
mod loose;
mod node;
mod nodes;
mod stock;
mod window;

pub use iter::Windows;
pub use list::IntervalList;
pub use window::{Ids, Window};
