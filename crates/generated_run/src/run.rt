//! A whole run over a made input.
ghost use Rattle.std.specs.Prelude.{◌≡◌, ◌≤◌, Ok, IsOk, IfOk, length};
ghost use Rattle.taxi_base.specs.State.{no_holder};
ghost use Rattle.taxi_text.specs.Lines.{commands_of};
ghost use Rattle.airport_file.specs.Reading.{airport_of};
ghost use Rattle.traffic_generator.specs.Grid.{grid_airport};
ghost use Rattle.generated_run.specs.Summaries.{IsSummaryOf, IsSummary};

use crate::answering::{check_answer, read_answer};
use crate::summary::Summary;
use airport_file::{Airport, AirportRefused, read_airport};
use std::alloc::Global;
use taxi_base::Memory;
use taxi_text::{lines, skipped};
use traffic_generator::{generate_airport, generate_commands};
use transcripts::{BlockChecker, Router};

/// The airport of a square grid, made as a file and read. The only error is that memory ran out.
pub fn made_airport(alloc: Global, number: u32, side: u32) -> Result<Airport, Memory>
    requires number { number ≤ 9999999 }
    requires side { (2 ≤ side) × (side ≤ 40) }
    ensures { IfOk result (λ airport. airport ≡ grid_airport number side) }
{
    let text = generate_airport(alloc, number, side)?;
    read_accepted(alloc, text.as_slice())
}

/// Makes commands over the airport of a square grid, has each answered, reads each reply back and has it checked, and counts
/// what came of them. To the router and to the checker, who have this airport, no flight is in force. The only error is that
/// memory ran out, for a command or for anything else.
pub fn run_generated<R: Router, C: BlockChecker>(
    alloc: Global,
    number: u32,
    side: u32,
    flights: u32,
    airport: &Airport,
    router: &mut R,
    checker: &mut C,
) -> Result<Summary, Memory>
    requires number { number ≤ 9999999 }
    requires side { (2 ≤ side) × (side ≤ 40) }
    requires flights { flights ≤ 2000 }
    requires airport { airport.now ≡ grid_airport number side }
    requires router { R.airport router.old ≡ airport.now }
    requires checker { C.airport checker.old ≡ airport.now }
    requires fresh { R.state router.old ≡ no_holder }
    requires follows { C.state checker.old ≡ no_holder }
    ensures { IfOk result (IsSummary number side flights) }
{
    let commands = generate_commands(alloc, number, side, flights)?;
    count_replies(alloc, airport, router, checker, commands.as_slice())
}

/// The airport of a file that is accepted.
fn read_accepted(alloc: Global, text: &[u8]) -> Result<Airport, Memory>
    requires short { length text.now ≤ 4194304 }
    requires accepted { IsOk (airport_of text.now) }
    ensures { IfOk result (λ airport. airport_of text.now ≡ Ok airport) }
{
    match read_airport(alloc, text) {
        Ok(airport) => Ok(airport),
        Err(AirportRefused::Memory) => Err(Memory::told()),
        Err(AirportRefused::Bad { .. }) => unreachable!(),
    }
}

/// Has the commands of a file answered in turn, and counts.
fn count_replies<R: Router, C: BlockChecker>(
    alloc: Global,
    airport: &Airport,
    router: &mut R,
    checker: &mut C,
    commands: &[u8],
) -> Result<Summary, Memory>
    requires router { R.airport router.old ≡ airport.now }
    requires checker { C.airport checker.old ≡ airport.now }
    requires fresh { R.state router.old ≡ no_holder }
    requires follows { C.state checker.old ≡ no_holder }
    requires few { length (commands_of commands.now) ≤ 2000 }
    ensures { IfOk result (IsSummaryOf airport.now (commands_of commands.now)) }
{
    let mut summary = Summary::new(airport);
    for line in lines(commands) {
        if !skipped(line) {
            let block = read_answer(alloc, airport, router, line)?;
            summary.count(&block);
            check_answer(airport, checker, line, block)?;
        }
    }
    Ok(summary)
}
