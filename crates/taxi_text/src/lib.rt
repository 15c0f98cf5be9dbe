//! The texts that the router reads and writes: lines, words, numbers and commands.
#![tactic(auto)]

mod batch;
mod choice;
mod command;
mod fields;
mod filed;
mod gathered;
mod laws;
mod line;
mod line_reader;
mod part;
mod reader;
mod texts;
mod word;

pub use command::{Asked, AskedAny, BatchRequest, Command, CommandRefused, Filed, FiledStep, Shut};
pub use fields::{read_arc_word, read_number};
pub use laws::{arc_words_are_read_again, lines_come_in_turn, numbers_are_read_again};
pub use line::{LineSlices, lines, skipped};
pub use line_reader::LineReader;
pub use reader::read_command;
pub use texts::{ShortText, push_bytes, push_number};
pub use word::{WordSlices, words};
