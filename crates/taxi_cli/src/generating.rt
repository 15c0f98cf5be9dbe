//! The verb `generate`.
ghost use Rattle.std.specs.Prelude.{◌≡◌, ◌≤◌, ℕ, List, Option, Some, IfOk};
ghost use Rattle.taxi_base.specs.State.{no_holder};
ghost use Rattle.taxi_io.specs.Files.{Files};
ghost use Rattle.program_words.specs.Verb.{Generate};
ghost use Rattle.traffic_generator.specs.Grid.{grid_airport};
ghost use Rattle.generated_run.specs.Summaries.{IsSummary};
ghost use Rattle.taxi_cli.specs.Endings.{Ends};

use airport_file::Airport;
use certificate_check::Checker;
use generated_run::{Summary, made_airport, run_generated};
use program_files::{Status, write_last};
use program_words::Traffic;
use std::alloc::Global;
use taxi_base::Memory;
use taxi_engine::Engine;
use taxi_io::Sink;

/// Runs the commands of made traffic, has each reply checked, and writes the six lines of what came of it, as one piece. No
/// file is read.
pub(crate) fn generate<K: Sink>(alloc: Global, traffic: &Traffic, out: &mut K) -> Status
    ensures ends { (files : Option Files) → (reads : ℕ × ℕ) → (given : List (List ℕ)) → Ends (record {
      files = files;
      reads = reads;
      writes = (K.faults out.old, K.faults out.new);
      taken = (K.written out.old, K.written out.new);
      given = given;
    }) (Some (Generate (record { number = traffic.now.number; side = traffic.now.side; flights = traffic.now.flights }))) result }
    ensures writes_later { K.faults out.old ≤ K.faults out.new }
{
    let Ok(summary) = run_traffic(alloc, traffic) else {
        return Status::Memory;
    };
    let Ok(text) = summary.text(alloc) else {
        return Status::Memory;
    };
    write_last(out, text.as_slice(), Status::Done)
}

// What comes of made traffic. The engine keeps its airport to itself, so the checker has one of its own.
fn run_traffic(alloc: Global, traffic: &Traffic) -> Result<Summary, Memory>
    ensures { IfOk result (IsSummary traffic.now.number traffic.now.side traffic.now.flights) }
{
    let airport = made_airport(alloc, traffic.number, traffic.side)?;
    let summary = run_beside(alloc, traffic, &airport);
    drop(airport);
    summary
}

// The same beside its airport, which the checker reads.
fn run_beside(alloc: Global, traffic: &Traffic, airport: &Airport) -> Result<Summary, Memory>
    requires { airport.now ≡ grid_airport traffic.now.number traffic.now.side }
    ensures { IfOk result (IsSummary traffic.now.number traffic.now.side traffic.now.flights) }
{
    let own = made_airport(alloc, traffic.number, traffic.side)?;
    run_over(alloc, traffic, airport, own)
}

// The same over its airport, by a new engine, whose airport is `own`. A call ends the engine, since a body that ends one by itself is
// slow to prove.
fn run_over(
    alloc: Global,
    traffic: &Traffic,
    airport: &Airport,
    own: Airport,
) -> Result<Summary, Memory>
    requires made { airport.now ≡ grid_airport traffic.now.number traffic.now.side }
    requires same { own ≡ airport.now }
    ensures { IfOk result (IsSummary traffic.now.number traffic.now.side traffic.now.flights) }
{
    let mut engine = Engine::new(alloc, own)?;
    let summary = run_checked(alloc, traffic, airport, &mut engine);
    drop(engine);
    summary
}

// The same by an engine to whom no flight is in force, with each reply checked by a new checker.
fn run_checked(
    alloc: Global,
    traffic: &Traffic,
    airport: &Airport,
    engine: &mut Engine,
) -> Result<Summary, Memory>
    requires made { airport.now ≡ grid_airport traffic.now.number traffic.now.side }
    requires same { engine.old.airport ≡ airport.now }
    requires fresh { engine.old.state ≡ no_holder }
    ensures { IfOk result (IsSummary traffic.now.number traffic.now.side traffic.now.flights) }
{
    let mut checker = Checker::new(alloc, airport)?;
    let summary = run_generated(
        alloc,
        traffic.number,
        traffic.side,
        traffic.flights,
        airport,
        engine,
        &mut checker,
    );
    drop(checker);
    summary
}
