//! How the reply to a command is written.
#![tactic(auto)]

mod digits;
mod line;
mod line_buffer;
mod print;
mod rows;
mod short;

pub use print::{print_batch, print_block, print_route};
pub use short::{cancelled_text, filed_text, refused_text};
