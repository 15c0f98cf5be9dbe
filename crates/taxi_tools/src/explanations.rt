//! The verb `explain`.
ghost use Rattle.std.specs.Prelude.{◌≡◌, ◌≤◌, ◌<◌, ℕ, List, length, None, IfOk, IfErr, MatchOption, MatchResult};
ghost use Rattle.taxi_base.specs.State.{IsSound};
ghost use Rattle.taxi_text.specs.FirstLines.{lent};
ghost use Rattle.taxi_text.specs.Lines.{commands_of};
ghost use Rattle.commitments.specs.Book.{Fits};
ghost use Rattle.command_run.specs.Supplied.{IsRunBefore};
ghost use Rattle.program_words.specs.Verb.{Route};
ghost use Rattle.program_files.specs.Inputs.{IsRunInOrder};
ghost use Rattle.program_files.specs.LastLine.{EndsWith};
ghost use Rattle.program_files.specs.Stops.{IsCause, StopsWith};
ghost use Rattle.tool_words.specs.Verb.{names_of};
ghost use Rattle.taxi_tools.specs.Outcomes.{IsExplanation, IsOfCommand, LacksCommand, no_command_line};

use airport_file::Airport;
use command_run::run_before;
use commitments::Ledger;
use itoa::Buffer;
use program_files::{Status, Stop, read_inputs, write_last, write_stop};
use reply_reasons::{explain, write_reasons};
use std::alloc::Global;
use taxi_base::Memory;
use taxi_engine::Engine;
use taxi_io::{Shelf, Sink};
use taxi_text::ShortText;

/// Why the reply to one of the commands of a file is as it is, at the airport of another, or what stops it. None where there are fewer
/// commands.
pub(crate) fn output_of_command<S: Shelf>(
    alloc: Global,
    shelf: &mut S,
    airport: &str,
    commands: &str,
    number: u32,
) -> Result<Option<Vec<u8>>, Stop>
    requires airport { S.knows shelf.old airport.now }
    requires commands { S.knows shelf.old commands.now }
    requires counted { 0 < number }
    ensures ok { IfOk result (λ found. MatchOption found
        (LacksCommand (S.files shelf.old) (names_of airport.now commands.now) number)
        (λ text. IsOfCommand (S.files shelf.old) (names_of airport.now commands.now) number text.items)) }
    ensures stop { IfErr result (IsCause (S.files shelf.old) (Route (names_of airport.now commands.now)) (S.faults shelf.old, S.faults shelf.new)) }
    ensures order { IsRunInOrder (S.files shelf.old) (names_of airport.now commands.now) (S.tried shelf.old) (S.tried shelf.new) }
    ensures later { S.faults shelf.old ≤ S.faults shelf.new }
{
    let (airport, commands) = read_inputs(alloc, shelf, airport, commands)?;
    Ok(explanation(alloc, airport, commands.as_slice(), number)?)
}

/// Writes an explanation as one piece, or the line that says why there is none.
pub(crate) fn write_explanation<K: Sink>(
    out: &mut K,
    output: Result<Option<Vec<u8>>, Stop>,
    number: u32,
) -> Status
    ensures ends { MatchResult output
        (λ found. MatchOption found
        (EndsWith (no_command_line number) Status.Wrong (K.faults out.old, K.faults out.new) (K.written out.old, K.written out.new) result)
        (λ text. EndsWith text.items Status.Done (K.faults out.old, K.faults out.new) (K.written out.old, K.written out.new) result))
        (λ stop. StopsWith stop (K.faults out.old, K.faults out.new) (K.written out.old, K.written out.new) result) }
    ensures later { K.faults out.old ≤ K.faults out.new }
{
    match output {
        Ok(Some(text)) => write_last(out, text.as_slice(), Status::Done),
        Ok(None) => write_last(out, no_command_line(number).bytes(), Status::Wrong),
        Err(stop) => write_stop(out, stop),
    }
}

// Why the reply to one of some commands is as it is; none where there are fewer. The only error is that memory ran out, for a command before
// it too. One call ends the engine's parts, since a body that ends them at several places is slow to prove.
fn explanation(
    alloc: Global,
    airport: Airport,
    commands: &[u8],
    number: u32,
) -> Result<Option<Vec<u8>>, Memory>
    requires { 0 < number }
    ensures { IfOk result (λ found. MatchOption found
        (length (commands_of commands.now) < number)
        (λ text. IsExplanation airport (commands_of commands.now) number text.items)) }
{
    let mut engine = Engine::new(alloc, airport)?;
    let line = run_before(&mut engine, commands, number);
    let (airport, mut ledger) = engine.into_parts();
    let text = text_of_line(alloc, &airport, &mut ledger, line);
    drop((airport, ledger));
    text
}

// Why the reply to the line before which a run ended is as it is, given to the holders that the run left in force; none where it ended before
// no line.
fn text_of_line(
    alloc: Global,
    airport: &Airport,
    ledger: &mut Ledger,
    line: Result<Option<&[u8]>, Memory>,
) -> Result<Option<Vec<u8>>, Memory>
    requires fits { Fits airport.now ledger.old }
    requires unlifted { ledger.old.lifted ≡ None }
    requires sound { IsSound airport.now ledger.old.state }
    ensures { (commands : List (List ℕ)) (number : ℕ) → 0 < number → IfOk line.entry (λ next. IsRunBefore airport.now commands number (lent next) ledger.old.state) →
        IfOk result (λ found. MatchOption found (length commands < number) (λ text. IsExplanation airport.now commands number text.items)) }
{
    let Some(line) = line? else {
        return Ok(None);
    };
    let reasons = explain(alloc, airport, ledger, line)?;
    Ok(Some(write_reasons(alloc, airport, reasons.as_slice())?))
}

// The line that says that there are fewer commands.
#[tactic(auto, unfolding(crate::specs::Outcomes::no_command_line))]
fn no_command_line(number: u32) -> ShortText
    ensures { result ≡ no_command_line number }
{
    let mut digits = Buffer::new();
    let mut text = ShortText::new();
    text.push(b"no command ");
    text.push(digits.format(number).as_bytes());
    text.push(b"\n");
    text
}
