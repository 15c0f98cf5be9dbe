//! The verb `import`.
ghost use Rattle.std.specs.Prelude.{◌≤◌, Some};
ghost use Rattle.program_words.specs.Verb.{Import};
ghost use Rattle.program_files.specs.Inputs.{IsInOrder};
ghost use Rattle.program_files.specs.Stops.{IsReadEnd};
ghost use Rattle.text_verbs.specs.Texts.{IsImportText};
ghost use Rattle.text_verbs.specs.Refused.{RefusesWith};

use crate::last_line::{bad_start_line, first_row_line};
use program_files::{Status, read_inputs, write_last, write_stop};
use schedule_import::{ScheduleRefused, import_schedule};
use std::alloc::Global;
use taxi_io::{Shelf, Sink};

/// Writes the commands that the schedule of one file comes to at the airport of another, as one piece.
pub fn import<S: Shelf, K: Sink>(
    alloc: Global,
    airport: &str,
    schedule: &str,
    shelf: &mut S,
    out: &mut K,
) -> Status
    requires airport { S.knows shelf.old airport.now }
    requires schedule { S.knows shelf.old schedule.now }
    ensures ends { IsReadEnd (IsImportText (S.files shelf.old) (record { airport = airport.now; commands = schedule.now })) (S.files shelf.old) (Import (record { airport = airport.now; commands = schedule.now })) (S.faults shelf.old, S.faults shelf.new) (K.faults out.old, K.faults out.new) (K.written out.old, K.written out.new) result }
    ensures order { IsInOrder (S.files shelf.old) (Some (Import (record { airport = airport.now; commands = schedule.now }))) (S.tried shelf.old) (S.tried shelf.new) }
    ensures reads_later { S.faults shelf.old ≤ S.faults shelf.new }
    ensures writes_later { K.faults out.old ≤ K.faults out.new }
{
    match read_inputs(alloc, shelf, airport, schedule) {
        Ok((airport, schedule)) => match import_schedule(alloc, &airport, schedule.as_slice()) {
            Ok(text) => write_last(out, text.as_slice(), Status::Done),
            Err(refused) => write_refused(out, refused),
        },
        Err(stop) => write_stop(out, stop),
    }
}

// Writes the line that says why the schedule is refused, and gives the status that goes with it.
fn write_refused<K: Sink>(out: &mut K, refused: ScheduleRefused) -> Status
    ensures ends { RefusesWith refused (K.faults out.old, K.faults out.new) (K.written out.old, K.written out.new) result }
    ensures later { K.faults out.old ≤ K.faults out.new }
{
    match refused {
        ScheduleRefused::FirstRow => write_last(out, first_row_line(), Status::ScheduleRefused),
        ScheduleRefused::BadStart => write_last(out, bad_start_line(), Status::ScheduleRefused),
        ScheduleRefused::Memory => Status::Memory,
    }
}
