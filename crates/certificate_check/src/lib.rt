//! Whether a reply is right, found out without the router's lists, stores, queues and searches.
#![tactic(auto)]

mod again;
mod anew;
mod batch;
mod batch_form;
mod block_checker;
mod block_route;
mod checker;
mod choice;
mod filing;
mod late;
mod late_base;
mod late_form;
mod late_moves;
mod late_order;
mod late_turn;
mod late_turns;
mod late_way;
mod laws;
mod line;
mod parties;
mod plain;
mod reply;
mod reports;
mod routed;
mod searches;

pub use checker::Checker;
pub use laws::repairs_that_pass_keep_what_was_entered;
pub use transcripts::CheckRefused;
