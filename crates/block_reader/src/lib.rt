//! Reading blocks: the one printable block whose text the bytes begin with.
#![tactic(auto)]

mod arcs;
mod entries;
mod fields;
mod found;
mod laws;
mod reader;
mod refusal;
mod refused;
mod rows;

pub use laws::{blocks_are_read_again, numbers_have_one_word};
pub use reader::{read_back, read_block};
pub use refused::BlockRefused;
