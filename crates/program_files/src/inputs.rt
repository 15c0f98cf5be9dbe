//! The files of a call, read whole before anything is done with them, but for the command file of a run.
ghost use Rattle.std.specs.Prelude.{◌≡◌, ◌≤◌, ◌∷◌, [], Some, Ok, is_ok, IfOk, OnOk, IfErr};
ghost use Rattle.taxi_io.specs.Files.{SameNames, BeganMore, Begins};
ghost use Rattle.program_words.specs.Verb.{Route, Check};
ghost use Rattle.program_files.specs.Inputs.{IsJudged, AreAccepted, AreToCheck, IsRunInOrder, IsInOrder};
ghost use Rattle.program_files.specs.Stops.{IsCause, IsCauseOfAirport, IsCauseOfBegin};

use crate::stop::Stop;
use airport_file::{Airport, read_airport};
use std::alloc::Global;
use taxi_io::{Shelf, read_all};

/// The most bytes of an airport file.
const AIRPORT_LIMIT: usize = 4_194_304;

/// The most bytes of a command file, or of a schedule.
pub const COMMANDS_LIMIT: usize = 16_777_216;

/// The most bytes of a transcript.
const TRANSCRIPT_LIMIT: usize = 268_435_456;

/// An airport file that is read, and its airport judged, before another file is begun.
pub fn read_airport_file<S: Shelf>(
    alloc: Global,
    shelf: &mut S,
    name: &str,
) -> Result<Airport, Stop>
    requires { S.knows shelf.old name.now }
    ensures ok { IfOk result (λ airport. IsJudged (S.files shelf.old) name.now (Ok airport)) }
    ensures stop { IfErr result (IsCauseOfAirport (S.files shelf.old) name.now (S.faults shelf.old, S.faults shelf.new)) }
    ensures tried { BeganMore (S.tried shelf.old) (S.tried shelf.new) (name.now ∷ []) }
    ensures later { S.faults shelf.old ≤ S.faults shelf.new }
    ensures files { S.files shelf.new ≡ S.files shelf.old }
    ensures names { SameNames (S.knows shelf.old) (S.knows shelf.new) }
{
    let bytes = read_all(alloc, shelf, name, AIRPORT_LIMIT)?;
    Ok(read_airport(alloc, bytes.as_slice())?)
}

/// Begins a command file, of which then all is left. Where that fails nothing is begun.
pub fn begin_commands<S: Shelf>(shelf: &mut S, name: &str) -> Result<(), Stop>
    requires { S.knows shelf.old name.now }
    ensures begun { S.begun shelf.new ≡ is_ok result }
    ensures whole { OnOk result (Begins (S.files shelf.old) name.now (S.rest shelf.new)) }
    ensures stop { IfErr result (IsCauseOfBegin (S.faults shelf.old, S.faults shelf.new)) }
    ensures tried { BeganMore (S.tried shelf.old) (S.tried shelf.new) (name.now ∷ []) }
    ensures later { S.faults shelf.old ≤ S.faults shelf.new }
    ensures files { S.files shelf.new ≡ S.files shelf.old }
{
    shelf.begin(name)?;
    Ok(())
}

/// The airport of a run or an import, and the bytes of its command file or its schedule, which is begun once the airport is
/// accepted.
pub fn read_inputs<S: Shelf>(
    alloc: Global,
    shelf: &mut S,
    airport: &str,
    commands: &str,
) -> Result<(Airport, Vec<u8>), Stop>
    requires airport { S.knows shelf.old airport.now }
    requires commands { S.knows shelf.old commands.now }
    ensures ok { IfOk result (λ read. AreAccepted (S.files shelf.old) (record { airport = airport.now; commands = commands.now }) read.0 read.1.items) }
    ensures stop { IfErr result (IsCause (S.files shelf.old) (Route (record { airport = airport.now; commands = commands.now })) (S.faults shelf.old, S.faults shelf.new)) }
    ensures order { IsRunInOrder (S.files shelf.old) (record { airport = airport.now; commands = commands.now }) (S.tried shelf.old) (S.tried shelf.new) }
    ensures both { OnOk result (BeganMore (S.tried shelf.old) (S.tried shelf.new) (airport.now ∷ commands.now ∷ [])) }
    ensures later { S.faults shelf.old ≤ S.faults shelf.new }
    ensures files { S.files shelf.new ≡ S.files shelf.old }
    ensures names { SameNames (S.knows shelf.old) (S.knows shelf.new) }
{
    let airport = read_airport_file(alloc, shelf, airport)?;
    let bytes = read_all(alloc, shelf, commands, COMMANDS_LIMIT)?;
    Ok((airport, bytes))
}

/// What a check reads.
#[derive(Drop)]
pub struct CheckFiles {
    pub airport: Airport,
    pub commands: Vec<u8>,
    pub transcript: Vec<u8>,
}

/// The files of a check, in the order of the words. Each is begun once those before it are accepted.
pub fn read_check<S: Shelf>(
    alloc: Global,
    shelf: &mut S,
    airport: &str,
    commands: &str,
    transcript: &str,
) -> Result<CheckFiles, Stop>
    requires airport { S.knows shelf.old airport.now }
    requires commands { S.knows shelf.old commands.now }
    requires transcript { S.knows shelf.old transcript.now }
    ensures ok { IfOk result (λ read. AreToCheck (S.files shelf.old) (record { airport = airport.now; commands = commands.now }) transcript.now read.airport read.commands.items read.transcript.items) }
    ensures stop { IfErr result (IsCause (S.files shelf.old) (Check (record { airport = airport.now; commands = commands.now }) transcript.now) (S.faults shelf.old, S.faults shelf.new)) }
    ensures order { IsInOrder (S.files shelf.old) (Some (Check (record { airport = airport.now; commands = commands.now }) transcript.now)) (S.tried shelf.old) (S.tried shelf.new) }
    ensures later { S.faults shelf.old ≤ S.faults shelf.new }
{
    let (airport, commands) = read_inputs(alloc, shelf, airport, commands)?;
    let transcript = read_all(alloc, shelf, transcript, TRANSCRIPT_LIMIT)?;
    Ok(CheckFiles {
        airport,
        commands,
        transcript,
    })
}
