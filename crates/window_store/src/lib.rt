//! Each segment's free windows, exact after every edit, with room for the edits to come.
#![tactic(auto)]

mod beside;
mod edits;
mod held;
mod laws;
mod row;
mod segment_windows;
mod stays;
mod step_counts;
mod still_held;
mod store;

pub use beside::RoomBeside;
pub use held::OtherHolds;
pub use laws::{
    lists_are_short, stores_stand_for_holds_in_any_order, windows_are_few,
    windows_stand_for_their_spans,
};
pub use store::WindowStore;
