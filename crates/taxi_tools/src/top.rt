//! The call that the program makes.
ghost use Rattle.std.specs.Prelude.{◌≡◌, ◌⊎◌, ◌≤◌, ℕ, List, map, string_bytes, Some, None, MatchResult};
ghost use Rattle.taxi_io.specs.Counts.{Rose};
ghost use Rattle.taxi_io.specs.Files.{Files};
ghost use Rattle.command_run.specs.Pace.{commands_left};
ghost use Rattle.program_files.specs.Call.{call_of};
ghost use Rattle.program_files.specs.LastLine.{EndsWith};
ghost use Rattle.program_files.specs.Stops.{StopsWith};
ghost use Rattle.tool_words.specs.Verb.{IsNamed, CountsFromOne, asked_by};
ghost use Rattle.tool_words.specs.LentWords.{asked_for};
ghost use Rattle.taxi_tools.specs.Due.{IsDueOf};
ghost use Rattle.taxi_tools.specs.Endings.{Ends};
ghost use Rattle.taxi_tools.specs.Handed.{IsHandedOver};
ghost use Rattle.taxi_tools.specs.Order.{IsInOrder};
ghost use Rattle.taxi_tools.specs.Pace.{KeepsPace};
ghost use Rattle.taxi_tools.specs.CarriedOut.{IsCarriedOut};

use crate::airport_tools::output_of_airport;
use crate::explanations::{output_of_command, write_explanation};
use crate::objects::json;
use crate::run_tools::output_of_run;
use program_files::{Status, Stop, write_last, write_stop};
use std::alloc::Global;
use taxi_io::{Shelf, Sink};
use tool_words::{Verb, asked_by, usage_line};

/// Does what the words after the program's name ask for, and writes what comes of it.
/// The airport is accepted or refused before another file is begun.
pub fn tools<S: Shelf, K: Sink>(
    alloc: Global,
    words: &[String],
    shelf: &mut S,
    out: &mut K,
) -> Status
    requires known { (name : List ℕ) → IsNamed (asked_by (map string_bytes words.now)) name → S.knows shelf.old name }

    ensures ends { Ends (call_of S.files S.faults S.given K.faults K.written (shelf.old, shelf.new) (out.old, out.new)) (asked_by (map string_bytes words.now)) result }

    // `Usage` comes exactly where the words are of no form, but for a line that can't be written. Nothing is read then.
    ensures usage { asked_by (map string_bytes words.now) ≡ None →
        (result ≡ Status.Usage) ⊎ ((result ≡ Status.WriteFault) ⊎ (result ≡ Status.Memory)) }
    ensures unread { asked_by (map string_bytes words.now) ≡ None → shelf.new ≡ shelf.old }

    // Where the files are told and nothing fails, the status is the one that is due, but for want of memory.
    ensures complete { (files : Files) → S.files shelf.old ≡ Some files →
        ¬ Rose (S.faults shelf.old) (S.faults shelf.new) → ¬ Rose (K.faults out.old) (K.faults out.new) →
        IsDueOf files (asked_by (map string_bytes words.now)) result ⊎ (result ≡ Status.Memory) }

    // It hands its whole output over as one piece, and with `json` each object as one.
    ensures handed { IsHandedOver (call_of S.files S.faults S.given K.faults K.written (shelf.old, shelf.new) (out.old, out.new)) (asked_by (map string_bytes words.now)) result }

    // With `json` each object is written before more of the command file is taken, and none until that file is begun.
    ensures pace { KeepsPace (call_of S.files S.faults S.given K.faults K.written (shelf.old, shelf.new) (out.old, out.new)) (asked_by (map string_bytes words.now))
        (λ names. commands_left (S.files shelf.old) names (S.begun shelf.new) (S.rest shelf.new)) (S.tried shelf.old, S.tried shelf.new) result }

    ensures order { IsInOrder (S.files shelf.old) (asked_by (map string_bytes words.now)) (S.tried shelf.old) (S.tried shelf.new) }
    ensures reads_later { S.faults shelf.old ≤ S.faults shelf.new }
    ensures writes_later { K.faults out.old ≤ K.faults out.new }
{
    match asked_by(words) {
        Some(asked) => carry_out(alloc, &asked, shelf, out),
        None => write_last(out, usage_line(), Status::Usage),
    }
}

// Does what is asked for.
fn carry_out<S: Shelf, K: Sink>(
    alloc: Global,
    asked: &Verb<'_>,
    shelf: &mut S,
    out: &mut K,
) -> Status
    requires known { (name : List ℕ) → IsNamed (Some (asked_for asked.now)) name → S.knows shelf.old name }
    requires counted { CountsFromOne (Some (asked_for asked.now)) }
    ensures { IsCarriedOut (call_of S.files S.faults S.given K.faults K.written (shelf.old, shelf.new) (out.old, out.new)) (asked_for asked.now)
        (λ names. commands_left (S.files shelf.old) names (S.begun shelf.new) (S.rest shelf.new)) (S.tried shelf.old, S.tried shelf.new) result }
{
    match asked {
        Verb::OfAirport { airport, tool } => {
            write_output(out, output_of_airport(alloc, shelf, airport, *tool))
        }
        Verb::OfRun {
            airport,
            commands,
            tool,
        } => write_output(out, output_of_run(alloc, shelf, airport, commands, tool)),
        Verb::Explain {
            airport,
            commands,
            number,
        } => {
            write_explanation(
                out,
                output_of_command(alloc, shelf, airport, commands, *number),
                *number,
            )
        }
        Verb::Json { airport, commands } => json(alloc, airport, commands, shelf, out),
    }
}

// Writes a whole output as one piece, or the line that says why there is none.
fn write_output<K: Sink>(out: &mut K, output: Result<Vec<u8>, Stop>) -> Status
    ensures ends { MatchResult output
        (λ text. EndsWith text.items Status.Done (K.faults out.old, K.faults out.new) (K.written out.old, K.written out.new) result)
        (λ stop. StopsWith stop (K.faults out.old, K.faults out.new) (K.written out.old, K.written out.new) result) }
    ensures later { K.faults out.old ≤ K.faults out.new }
{
    match output {
        Ok(text) => write_last(out, text.as_slice(), Status::Done),
        Err(stop) => write_stop(out, stop),
    }
}
