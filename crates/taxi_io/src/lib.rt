//! Files that are read and output that is written, each piece of which may fail.
//! A failure is answered only where a count of faults rose.
#![tactic(auto)]

mod file_shelf;
mod history;
mod memory_shelf;
mod memory_sink;
mod output_sink;
mod planned_faults;
mod reading;
mod shelf;
mod sink;
mod steady_shelf;
mod steady_sink;
mod trouble;
mod writing;

pub use file_shelf::FileShelf;
pub use memory_shelf::MemoryShelf;
pub use memory_sink::MemorySink;
pub use output_sink::OutputSink;
pub use reading::{read_all, read_piece};
pub use shelf::Shelf;
pub use sink::Sink;
pub use steady_shelf::SteadyShelf;
pub use steady_sink::SteadySink;
pub use trouble::{ReadRefused, Trouble};
pub use writing::write_all;
