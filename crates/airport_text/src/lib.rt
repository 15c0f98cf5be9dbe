//! The canonical text of an airport.
#![tactic(auto)]

mod laws;
mod records;
mod write;

pub use laws::canonical_texts_are_read_again;
pub use records::RecordWriter;
pub use write::write_airport;
