//! Civil times with their offsets from UTC: the second that a text names, and the text of a second later.
#![tactic(auto)]

mod digits;
mod laws;
mod start;
mod times;

pub use laws::later_times_are_times;
pub use start::Start;
pub use times::second_of;
