//! Why a reply is as it is: what a flight would be told with no other holder, without each of them, and at any other time; where its route
//! waits, and for whom; and what stands in the way of a route given by hand.
#![tactic(auto)]

mod asking;
mod explaining;
mod in_the_way;
mod laws;
mod left_out;
mod reason;
mod searching;
mod seconds;
mod taken;
mod text;
mod under_way;
mod waits;

pub use asking::{Asking, Way};
pub use explaining::explain;
pub use laws::{
    answers_are_those_of_replies, explanations_are_one, no_holder_is_worth_more_than_all,
    waits_name_holders,
};
pub use reason::Reason;
pub use text::write_reasons;
