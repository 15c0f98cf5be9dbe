//! Commands that ask for a report: what is held of a segment, and the flights in force.
ghost use Rattle.std.specs.Prelude.{◌≡◌, ◌↔◌, ◌<◌, IsTrue, length};
ghost use Rattle.taxi_base.specs.Airport.{Airport};
ghost use Rattle.taxi_base.specs.State.{IsSound};
ghost use Rattle.taxi_text.specs.declared.command.Command.TheVariants as command;
ghost use Rattle.checked_state.specs.Flights.{flights_of, state_of, HasSpansOf};
ghost use Rattle.certificate_check.specs.Judged.{IsJudged};
ghost use Rattle.certificate_check.specs.Reports.{IsOccupancyOf, IsTimetableOf};

use crate::CheckRefused;
use crate::reply::{is_refusal, pass_if};
use airport_file::Airport;
use check_reports::{are_flight_rows, are_held_rows};
use checked_state::{FlightList, HeldFlights};
use replies::Block;
use taxi_base::{Name, Refusal, Segment};

/// Checks the block of what is held of a segment.
pub fn check_occupancy(
    airport: &Airport,
    held: &HeldFlights,
    name: &Name,
    block: &Block,
) -> Result<(), CheckRefused>
    requires sound { IsSound airport.now (state_of held.now) }
    requires spans { HasSpansOf airport.now (state_of held.now) held.now }
    ensures { IsJudged airport.now (command.Occupancy name.now) block.now (state_of held.now) result (state_of held.now) }
{
    let Some(segment) = airport.segment_named(name) else {
        return pass_if(is_refusal(block, &Refusal::UnknownSegment));
    };
    pass_if(is_occupancy(airport, held, segment, block))
}

/// Checks the block of the flights in force.
pub fn check_timetable(held: &HeldFlights, block: &Block) -> Result<(), CheckRefused>
    ensures { (airport : Airport) → IsJudged airport command.Timetable block.now (state_of held.now) result (state_of held.now) }
{
    pass_if(is_timetable(held.flights(), block))
}

// Whether a block tells all that is held of a segment and of those in conflict with it.
fn is_occupancy(airport: &Airport, held: &HeldFlights, segment: Segment, block: &Block) -> bool
    requires on { segment.0 < length airport.now.segments }
    requires spans { HasSpansOf airport.now (state_of held.now) held.now }
    ensures { IsTrue result ↔ IsOccupancyOf airport.now (state_of held.now) segment block.now }
{
    match block {
        Block::Occupancy {
            segment: told,
            held: rows,
        } => *told == segment && are_held_rows(airport, held, segment, rows.as_slice()),
        _ => false,
    }
}

// Whether a block tells that these are the flights in force.
fn is_timetable(flights: &FlightList, block: &Block) -> bool
    ensures { IsTrue result ↔ IsTimetableOf (flights_of flights.now) block.now }
{
    match block {
        Block::Timetable { flights: rows } => are_flight_rows(rows.as_slice(), flights),
        _ => false,
    }
}
