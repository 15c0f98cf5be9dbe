//! The verb `check`.
ghost use Rattle.std.specs.Prelude.{◌≤◌, Some, length, IfOk};
ghost use Rattle.taxi_text.specs.Lines.{commands_of};
ghost use Rattle.program_words.specs.Verb.{Check};
ghost use Rattle.program_files.specs.Inputs.{IsInOrder};
ghost use Rattle.transcript_check.specs.Verdicts.{IsVerdict};
ghost use Rattle.taxi_cli.specs.Endings.{Ends, call_of};

use crate::last_line::{ok_line, wrong_line};
use airport_file::Airport;
use certificate_check::Checker;
use program_files::{Status, read_check, write_last, write_stop};
use std::alloc::Global;
use taxi_base::Memory;
use taxi_io::{Shelf, Sink};
use transcript_check::{Verdict, check_transcript};

/// Checks the transcript of one file against the commands of another, at the airport of a third.
pub(crate) fn check<S: Shelf, K: Sink>(
    alloc: Global,
    airport: &str,
    commands: &str,
    transcript: &str,
    shelf: &mut S,
    out: &mut K,
) -> Status
    requires airport { S.knows shelf.old airport.now }
    requires commands { S.knows shelf.old commands.now }
    requires transcript { S.knows shelf.old transcript.now }
    ensures ends { Ends (call_of S.files S.faults S.given K.faults K.written (shelf.old, shelf.new) (out.old, out.new)) (Some (Check (record { airport = airport.now; commands = commands.now }) transcript.now)) result }
    ensures order { IsInOrder (S.files shelf.old) (Some (Check (record { airport = airport.now; commands = commands.now }) transcript.now)) (S.tried shelf.old) (S.tried shelf.new) }
    ensures reads_later { S.faults shelf.old ≤ S.faults shelf.new }
    ensures writes_later { K.faults out.old ≤ K.faults out.new }
{
    match read_check(alloc, shelf, airport, commands, transcript) {
        Ok(read) => {
            let commands = read.commands.as_slice();
            let transcript = read.transcript.as_slice();
            let verdict = verdict_of(alloc, &read.airport, commands, transcript);
            drop(read);
            match verdict {
                Ok(Verdict::Right { count }) => {
                    write_last(out, ok_line(count).bytes(), Status::Done)
                }
                Ok(Verdict::Wrong { number, why }) => {
                    write_last(out, wrong_line(number, why).bytes(), Status::Wrong)
                }
                Err(_) => Status::Memory,
            }
        }
        Err(stop) => write_stop(out, stop),
    }
}

// What a new checker over an airport finds of a transcript.
fn verdict_of(
    alloc: Global,
    airport: &Airport,
    commands: &[u8],
    transcript: &[u8],
) -> Result<Verdict, Memory>
    requires { length commands.now ≤ 16777216 }
    ensures { IfOk result (IsVerdict airport.now (commands_of commands.now) transcript.now) }
{
    let mut checker = Checker::new(alloc, airport)?;
    let verdict = check_transcript(alloc, airport, &mut checker, commands, transcript);
    drop(checker);
    verdict
}
