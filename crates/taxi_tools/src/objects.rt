//! The verb `json`.
ghost use Rattle.std.specs.Prelude.{◌≡◌, ◌≤◌, ◌∷◌, [], true, Some, IfOk, IfErr, IsErrOf, IsTrue};
ghost use Rattle.taxi_io.specs.Counts.{Rose};
ghost use Rattle.taxi_io.specs.Files.{BeganMore};
ghost use Rattle.command_run.specs.Pace.{commands_left};
ghost use Rattle.command_run.specs.Told.{IsWholeTold};
ghost use Rattle.program_files.specs.Call.{call_of};
ghost use Rattle.program_files.specs.Inputs.{commands_limit};
ghost use Rattle.tool_words.specs.Verb.{Json, names_of};
ghost use Rattle.taxi_tools.specs.Endings.{Ends};
ghost use Rattle.taxi_tools.specs.Handed.{IsInPieces};
ghost use Rattle.taxi_tools.specs.Objects.{object_of};
ghost use Rattle.taxi_tools.specs.Order.{IsInOrder};
ghost use Rattle.taxi_tools.specs.Pace.{KeepsPace};
ghost use Rattle.taxi_tools.specs.RunEnds.{AreStopped, IsRunEnd};

use crate::object_teller::ObjectTeller;
use airport_file::Airport;
use command_run::{RunRefused, run_told, write_halt};
use program_files::{
    COMMANDS_LIMIT, Status, begin_commands, read_airport_file, write_last, write_stop,
};
use reply_json::done_line;
use std::alloc::Global;
use taxi_io::{Shelf, Sink};

/// Answers the commands of one file at the airport of another, and writes each reply as a JSON object.
pub(crate) fn json<S: Shelf, K: Sink>(
    alloc: Global,
    airport: &str,
    commands: &str,
    shelf: &mut S,
    out: &mut K,
) -> Status
    requires airport { S.knows shelf.old airport.now }
    requires commands { S.knows shelf.old commands.now }
    ensures ends { Ends (call_of S.files S.faults S.given K.faults K.written (shelf.old, shelf.new) (out.old, out.new)) (Some (Json (names_of airport.now commands.now))) result }
    ensures pace { KeepsPace (call_of S.files S.faults S.given K.faults K.written (shelf.old, shelf.new) (out.old, out.new)) (Some (Json (names_of airport.now commands.now)))
        (λ names. commands_left (S.files shelf.old) names (S.begun shelf.new) (S.rest shelf.new)) (S.tried shelf.old, S.tried shelf.new) result }
    ensures handed { IsInPieces (call_of S.files S.faults S.given K.faults K.written (shelf.old, shelf.new) (out.old, out.new)) (names_of airport.now commands.now) result }
    ensures order { IsInOrder (S.files shelf.old) (Some (Json (names_of airport.now commands.now))) (S.tried shelf.old) (S.tried shelf.new) }
    ensures reads_later { S.faults shelf.old ≤ S.faults shelf.new }
    ensures writes_later { K.faults out.old ≤ K.faults out.new }
{
    match read_airport_file(alloc, shelf, airport) {
        Ok(airport) => json_at(alloc, airport, commands, shelf, out),
        Err(stop) => write_stop(out, stop),
    }
}

// The same at an airport.
fn json_at<S: Shelf, K: Sink>(
    alloc: Global,
    airport: Airport,
    commands: &str,
    shelf: &mut S,
    out: &mut K,
) -> Status
    requires { S.knows shelf.old commands.now }
    ensures run { IsRunEnd (record {
      files = S.files shelf.old;
      reads = (S.faults shelf.old, S.faults shelf.new);
      writes = (K.faults out.old, K.faults out.new);
      begun = S.begun shelf.new;
      left = S.rest shelf.new;
      given = S.given shelf.new;
      taken = (K.written out.old, K.written out.new);
    }) airport commands.now result }
    ensures tried { BeganMore (S.tried shelf.old) (S.tried shelf.new) (commands.now ∷ []) }
    ensures reads_later { S.faults shelf.old ≤ S.faults shelf.new }
    ensures writes_later { K.faults out.old ≤ K.faults out.new }
{
    match begin_commands(shelf, commands) {
        Ok(()) => match run_teller(alloc, airport, shelf, out) {
            Ok(count) => write_last(out, done_line(count).bytes(), Status::Done),
            Err(refused) => write_halt(out, refused),
        },
        Err(stop) => {
            drop(airport);
            write_stop(out, stop)
        }
    }
}

// The same for the begun file. A call ends the engine, since a body that ends one by itself is slow to prove.
fn run_teller<S: Shelf, K: Sink>(
    alloc: Global,
    airport: Airport,
    shelf: &mut S,
    out: &mut K,
) -> Result<u64, RunRefused>
    requires { IsTrue (S.begun shelf.old) }
    ensures whole { IfOk result (IsWholeTold object_of airport commands_limit (S.rest shelf.old, S.rest shelf.new) (K.written out.old, K.written out.new)) }
    ensures stopped { IfErr result (AreStopped airport commands_limit (S.rest shelf.old, S.rest shelf.new) (S.given shelf.old, S.given shelf.new) (K.written out.old, K.written out.new)) }
    ensures read_fault { IsErrOf result RunRefused.ReadFault → Rose (S.faults shelf.old) (S.faults shelf.new) }
    ensures write_fault { IsErrOf result RunRefused.WriteFault → Rose (K.faults out.old) (K.faults out.new) }
    ensures begun { S.begun shelf.new ≡ true }
    ensures tried { S.tried shelf.new ≡ S.tried shelf.old }
    ensures reads_later { S.faults shelf.old ≤ S.faults shelf.new }
    ensures writes_later { K.faults out.old ≤ K.faults out.new }
    ensures files { S.files shelf.new ≡ S.files shelf.old }
{
    let mut teller = ObjectTeller::new(alloc, airport)?;
    let count = run_told(alloc, &mut teller, shelf, COMMANDS_LIMIT, out);
    drop(teller);
    count
}
