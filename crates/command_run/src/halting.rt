//! How a call ends whose run is stopped.
ghost use Rattle.std.specs.Prelude.{◌≤◌};
ghost use Rattle.command_run.specs.Halts.{HaltsWith};

use crate::refused::RunRefused;
use program_files::{Status, read_fault_line, too_large_line, write_last};
use taxi_io::Sink;

/// Writes the line that says why a run ends before the end of its file, and gives the status that goes with it.
pub fn write_halt<K: Sink>(out: &mut K, why: RunRefused) -> Status
    ensures ends { HaltsWith why (K.faults out.old, K.faults out.new) (K.written out.old, K.written out.new) result }
    ensures later { K.faults out.old ≤ K.faults out.new }
{
    match why {
        RunRefused::ReadFault => write_last(out, read_fault_line(), Status::ReadFault),
        RunRefused::TooLarge => write_last(out, too_large_line(), Status::TooLarge),
        RunRefused::WriteFault => Status::WriteFault,
        RunRefused::Memory => Status::Memory,
    }
}
