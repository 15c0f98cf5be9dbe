//! Lines that seek a walk for a new flight.
ghost use Rattle.taxi_text.specs.declared.command.Command.TheVariants as command;
ghost use Rattle.replies.specs.Printable.{IsShort};
ghost use Rattle.checked_state.specs.Flights.{state_of};
ghost use Rattle.certificate_check.specs.Desk.{IsReady};
ghost use Rattle.certificate_check.specs.Judged.{IsJudged};

use crate::CheckRefused;
use crate::reply::{is_refusal, pass_if};
use crate::routed::check_new;
use airport_file::Airport;
use check_rows::KnownWindows;
use checked_state::HeldFlights;
use due_refusals::{named_arrival, named_departure};
use replies::{Block, Wish};
use taxi_base::Request;
use taxi_text::Asked;

/// Checks the block of an arrival.
pub fn check_arrival(
    airport: &Airport,
    held: &mut HeldFlights,
    known: &mut KnownWindows,
    asked: &Asked,
    block: Block,
) -> Result<(), CheckRefused>
    requires ready { IsReady airport.now held.old known.old }
    requires time { IsShort asked.now.time }
    requires hold { IsShort asked.now.slack }
    ensures judged { IsJudged airport.now (command.Arrival asked.now) block (state_of held.old) result (state_of held.new) }
    ensures ready { IsReady airport.now held.new known.new }
{
    match named_arrival(airport, held, asked) {
        Ok(named) => {
            let request = Request::Arrival {
                from: named.from,
                to: named.to,
                time: asked.time,
                hold: asked.slack,
            };
            let wish = Wish {
                name: asked.flight,
                class: named.class,
                request,
            };
            check_new(airport, held, known, &wish, block)
        }
        Err(why) => pass_if(is_refusal(&block, &why)),
    }
}

/// Checks the block of a departure.
pub fn check_departure(
    airport: &Airport,
    held: &mut HeldFlights,
    known: &mut KnownWindows,
    asked: &Asked,
    block: Block,
) -> Result<(), CheckRefused>
    requires ready { IsReady airport.now held.old known.old }
    requires time { IsShort asked.now.time }
    requires queue { IsShort asked.now.slack }
    ensures judged { IsJudged airport.now (command.Departure asked.now) block (state_of held.old) result (state_of held.new) }
    ensures ready { IsReady airport.now held.new known.new }
{
    match named_departure(airport, held, asked) {
        Ok(named) => {
            let request = Request::Departure {
                from: named.from,
                to: named.to,
                time: asked.time,
                queue: asked.slack,
            };
            let wish = Wish {
                name: asked.flight,
                class: named.class,
                request,
            };
            check_new(airport, held, known, &wish, block)
        }
        Err(why) => pass_if(is_refusal(&block, &why)),
    }
}
