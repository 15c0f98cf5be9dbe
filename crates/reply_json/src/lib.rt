//! Replies as JSON: one object for each command, on a line of its own.
#![tactic(auto)]

mod entries;
mod laws;
mod line;
mod lists;
mod members;
mod numbered;
mod pieces;
mod refusals;
mod reports;
mod routes;
mod rows;
mod short_replies;
mod words;

pub use laws::{
    objects_are_read_back, objects_give_the_line, objects_give_the_transcript, words_give_the_line,
};
pub use line::{done_line, write_object_line};
