//! What is asked of an airport alone.
ghost use Rattle.std.specs.Prelude.{◌≡◌, ◌≤◌, ◌∷◌, [], IfOk, IfErr};
ghost use Rattle.taxi_io.specs.Files.{BeganMore};
ghost use Rattle.program_files.specs.Stops.{IsCauseOfAirport};
ghost use Rattle.taxi_tools.specs.Outcomes.{IsAirportText, IsOfAirport};

use airport_file::Airport;
use airport_graph::write_graph;
use airport_lint::write_advice;
use program_files::{Stop, read_airport_file};
use std::alloc::Global;
use taxi_base::Memory;
use taxi_io::Shelf;
use tool_words::AirportTool;

/// What a tool writes of the airport of a file, or what stops it.
pub(crate) fn output_of_airport<S: Shelf>(
    alloc: Global,
    shelf: &mut S,
    airport: &str,
    tool: AirportTool,
) -> Result<Vec<u8>, Stop>
    requires { S.knows shelf.old airport.now }
    ensures ok { IfOk result (λ text. IsOfAirport (S.files shelf.old) airport.now tool text.items) }
    ensures stop { IfErr result (IsCauseOfAirport (S.files shelf.old) airport.now (S.faults shelf.old, S.faults shelf.new)) }
    ensures tried { BeganMore (S.tried shelf.old) (S.tried shelf.new) (airport.now ∷ []) }
    ensures later { S.faults shelf.old ≤ S.faults shelf.new }
{
    let airport = read_airport_file(alloc, shelf, airport)?;
    let text = airport_text(alloc, &airport, tool);
    drop(airport);
    Ok(text?)
}

// What a tool writes of an airport. The only error is that memory ran out. One call above ends the airport, since a body that ends one by
// itself is slow to prove.
fn airport_text(alloc: Global, airport: &Airport, tool: AirportTool) -> Result<Vec<u8>, Memory>
    ensures { IfOk result (λ text. IsAirportText airport.now tool text.items) }
{
    match tool {
        AirportTool::Graph => write_graph(alloc, airport),
        AirportTool::Lint => write_advice(alloc, airport),
    }
}
