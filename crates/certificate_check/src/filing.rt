//! The check of what answers a route that is given by hand.
ghost use Rattle.std.specs.Prelude.{◌≡◌, ◌↔◌, ◌<◌, IsTrue, length};
ghost use Rattle.taxi_base.specs.Walks.{begin_of, end_of};
ghost use Rattle.taxi_text.specs.declared.command.Command.TheVariants as command;
ghost use Rattle.taxi_text.specs.Commands.{is_step_count};
ghost use Rattle.replies.specs.declared.block.Block.TheVariants as told;
ghost use Rattle.checked_state.specs.Flights.{state_of};
ghost use Rattle.certificate_check.specs.Desk.{IsReady};
ghost use Rattle.certificate_check.specs.Judged.{IsJudged};

use crate::CheckRefused;
use crate::reply::{is_refusal, pass_if};
use crate::routed::put_in_force;
use airport_file::Airport;
use check_rows::KnownWindows;
use checked_state::HeldFlights;
use due_refusals::{Due, find_due};
use replies::Block;
use std::alloc::Global;
use taxi_base::{Name, Step, begin_of, end_of};
use taxi_text::Filed;

/// Checks the block of a filed route. Where it passes, and the route is not refused, its flight is in force afterwards.
pub fn check_file(
    alloc: Global,
    airport: &Airport,
    held: &mut HeldFlights,
    known: &mut KnownWindows,
    filed: &Filed,
    block: &Block,
) -> Result<(), CheckRefused>
    requires ready { IsReady airport.now held.old known.old }
    requires steps { IsTrue (is_step_count (length filed.now.steps)) }
    ensures judged { IsJudged airport.now (command.File filed.now) block.now (state_of held.old) result (state_of held.new) }
    ensures ready { IsReady airport.now held.new known.new }
{
    match find_due(alloc, airport, held, known, filed)? {
        Due::Refused(why) => pass_if(is_refusal(block, &why)),
        Due::Accepted(flight) => {
            pass_if(is_filed(block, &flight.name, flight.steps.as_slice()))?;
            put_in_force(airport, held, known, flight)?;
            Ok(())
        }
    }
}

// Whether a block tells that a flight is in force on some steps.
fn is_filed(block: &Block, name: &Name, steps: &[Step]) -> bool
    requires { 0 < length steps.now }
    ensures { IsTrue result ↔ (block.now ≡ told.Filed name.now (begin_of steps.now) (end_of steps.now)) }
{
    match block {
        Block::Filed { flight, start, end } => {
            flight == name && *start == begin_of(steps) && *end == end_of(steps)
        }
        _ => false,
    }
}
