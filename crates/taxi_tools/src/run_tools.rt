//! What is asked of a run whose files are read whole.
ghost use Rattle.std.specs.Prelude.{◌≡◌, ◌≤◌, [], IfOk, IfErr, length};
ghost use Rattle.taxi_base.specs.State.{no_holder};
ghost use Rattle.taxi_text.specs.Lines.{commands_of};
ghost use Rattle.run_figures.specs.Counts.{AreCounts};
ghost use Rattle.program_words.specs.Verb.{Route};
ghost use Rattle.program_files.specs.Inputs.{commands_limit, IsRunInOrder};
ghost use Rattle.program_files.specs.Stops.{IsCause};
ghost use Rattle.tool_words.specs.Verb.{names_of};
ghost use Rattle.taxi_tools.specs.Outcomes.{IsRunText, IsOfRun};

use crate::reply_counter::ReplyCounter;
use airport_file::Airport;
use command_run::run_kept;
use program_files::{Stop, read_inputs};
use std::alloc::Global;
use taxi_base::Memory;
use taxi_io::Shelf;
use tool_words::RunTool;

/// What a tool writes of the run over the commands of one file at the airport of another, or what stops it.
pub(crate) fn output_of_run<S: Shelf>(
    alloc: Global,
    shelf: &mut S,
    airport: &str,
    commands: &str,
    tool: &RunTool,
) -> Result<Vec<u8>, Stop>
    requires airport { S.knows shelf.old airport.now }
    requires commands { S.knows shelf.old commands.now }
    ensures ok { IfOk result (λ text. IsOfRun (S.files shelf.old) (names_of airport.now commands.now) tool.now text.items) }
    ensures stop { IfErr result (IsCause (S.files shelf.old) (Route (names_of airport.now commands.now)) (S.faults shelf.old, S.faults shelf.new)) }
    ensures order { IsRunInOrder (S.files shelf.old) (names_of airport.now commands.now) (S.tried shelf.old) (S.tried shelf.new) }
    ensures later { S.faults shelf.old ≤ S.faults shelf.new }
{
    let (airport, commands) = read_inputs(alloc, shelf, airport, commands)?;
    Ok(run_text(alloc, airport, commands.as_slice(), tool)?)
}

// What a tool writes of a run over commands at an airport. The only error is that memory ran out, for a command too. A call ends the
// engine, since a body that ends one by itself is slow to prove.
fn run_text(
    alloc: Global,
    airport: Airport,
    commands: &[u8],
    tool: &RunTool,
) -> Result<Vec<u8>, Memory>
    requires { length commands.now ≤ commands_limit }
    ensures { IfOk result (λ text. IsRunText airport (commands_of commands.now) tool.now text.items) }
{
    let mut counter = ReplyCounter::new(alloc, airport)?;
    let text = text_of(&mut counter, commands, tool);
    drop(counter);
    text
}

// The same where nothing is in force and no reply is counted.
fn text_of(counter: &mut ReplyCounter, commands: &[u8], tool: &RunTool) -> Result<Vec<u8>, Memory>
    requires fresh { counter.old.engine.state ≡ no_holder }
    requires none { AreCounts counter.old.engine.airport [] counter.old.counts }
    requires few { length commands.now ≤ commands_limit }
    ensures { IfOk result (λ text. IsRunText counter.old.engine.airport (commands_of commands.now) tool.now text.items) }
{
    run_kept(counter, commands)?;
    counter.text(tool)
}
