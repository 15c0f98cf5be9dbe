//! The verb `migrate`.
ghost use Rattle.std.specs.Prelude.{◌≤◌, Some};
ghost use Rattle.program_words.specs.Verb.{Migrate};
ghost use Rattle.program_files.specs.Inputs.{IsInOrder};
ghost use Rattle.program_files.specs.Stops.{IsReadEnd};
ghost use Rattle.text_verbs.specs.Texts.{IsMigrateText};

use airport_text::write_airport;
use program_files::{Status, read_airport_file, write_last, write_stop};
use std::alloc::Global;
use taxi_io::{Shelf, Sink};

/// Writes the canonical text of the airport of a file.
pub fn migrate<S: Shelf, K: Sink>(
    alloc: Global,
    airport: &str,
    shelf: &mut S,
    out: &mut K,
) -> Status
    requires { S.knows shelf.old airport.now }
    ensures ends { IsReadEnd (IsMigrateText (S.files shelf.old) airport.now) (S.files shelf.old) (Migrate airport.now) (S.faults shelf.old, S.faults shelf.new) (K.faults out.old, K.faults out.new) (K.written out.old, K.written out.new) result }
    ensures order { IsInOrder (S.files shelf.old) (Some (Migrate airport.now)) (S.tried shelf.old) (S.tried shelf.new) }
    ensures reads_later { S.faults shelf.old ≤ S.faults shelf.new }
    ensures writes_later { K.faults out.old ≤ K.faults out.new }
{
    match read_airport_file(alloc, shelf, airport) {
        Ok(airport) => {
            let Ok(text) = write_airport(alloc, &airport) else {
                return Status::Memory;
            };
            write_last(out, text.as_slice(), Status::Done)
        }
        Err(stop) => write_stop(out, stop),
    }
}
