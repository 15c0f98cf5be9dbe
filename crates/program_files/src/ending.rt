//! What a call writes last, and the status that goes with it.
ghost use Rattle.std.specs.Prelude.{◌≡◌, ◌≤◌};
ghost use Rattle.program_files.specs.LastLine.{EndsWith, status_after};
ghost use Rattle.program_files.specs.Stops.{StopsWith};

use crate::last_line::{read_fault_line, refusal_line, too_large_line};
use crate::status::Status;
use crate::stop::Stop;
use taxi_io::{Sink, Trouble, write_all};

/// Writes what a call writes last. Where that fails, the failure is the status.
pub fn write_last<K: Sink>(out: &mut K, text: &[u8], status: Status) -> Status
    ensures ends { EndsWith text.now status (K.faults out.old, K.faults out.new) (K.written out.old, K.written out.new) result }
    ensures later { K.faults out.old ≤ K.faults out.new }
{
    status_after(write_all(out, text), status)
}

// The status of a call whose whole text was to be written.
fn status_after(written: Result<(), Trouble>, whole: Status) -> Status
    ensures { result ≡ status_after written whole }
{
    match written {
        Ok(()) => whole,
        Err(Trouble::Failed) => Status::WriteFault,
        Err(Trouble::Memory) => Status::Memory,
    }
}

/// Writes the line that says why nothing was done, and gives the status that goes with it.
pub fn write_stop<K: Sink>(out: &mut K, stop: Stop) -> Status
    ensures ends { StopsWith stop (K.faults out.old, K.faults out.new) (K.written out.old, K.written out.new) result }
    ensures later { K.faults out.old ≤ K.faults out.new }
{
    match stop {
        Stop::Refused { at, why } => {
            let line = refusal_line(at, why);
            write_last(out, line.bytes(), Status::AirportRefused)
        }
        Stop::ReadFault => write_last(out, read_fault_line(), Status::ReadFault),
        Stop::TooLarge => write_last(out, too_large_line(), Status::TooLarge),
        Stop::Memory => Status::Memory,
    }
}
