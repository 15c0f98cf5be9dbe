//! The windows of one segment in a plain list: made from what is held, cut where more is, given back what no longer is, and looked
//! through.
#![tactic(auto)]

mod cuts;
mod finding;
mod giving;
mod making;

pub use cuts::cut_windows;
pub use finding::{has_window, windows_between};
pub use giving::give_back;
pub use making::fill_windows;
