//! Lines that seek a walk of a new flight to any of some nodes.
ghost use Rattle.std.specs.Prelude.{◌<◌, length};
ghost use Rattle.taxi_text.specs.declared.command.Command.TheVariants as command;
ghost use Rattle.replies.specs.Printable.{IsShort};
ghost use Rattle.checked_state.specs.Flights.{state_of};
ghost use Rattle.certificate_check.specs.Desk.{IsReady};
ghost use Rattle.certificate_check.specs.Judged.{IsJudged};

use crate::CheckRefused;
use crate::reply::{is_refusal, pass_if};
use crate::routed::check_new_to_any;
use airport_file::Airport;
use check_rows::KnownWindows;
use checked_state::HeldFlights;
use due_refusals::{NamedAny, named_arrival_any, named_departure_any};
use replies::{Block, Wish};
use std::alloc::Global;
use taxi_base::Request;
use taxi_text::AskedAny;

/// Checks the block of an arrival to one of some stands.
pub fn check_arrival_any(
    alloc: Global,
    airport: &Airport,
    held: &mut HeldFlights,
    known: &mut KnownWindows,
    asked: &AskedAny,
    block: Block,
) -> Result<(), CheckRefused>
    requires ready { IsReady airport.now held.old known.old }
    requires time { IsShort asked.now.time }
    requires hold { IsShort asked.now.slack }
    requires some { 0 < length asked.now.nodes }
    ensures judged { IsJudged airport.now (command.ArrivalAny asked.now) block (state_of held.old) result (state_of held.new) }
    ensures ready { IsReady airport.now held.new known.new }
{
    let named = named_arrival_any(alloc, airport, held, asked)?;
    match &named {
        NamedAny::Named { class, from, nodes } => {
            let nodes = nodes.as_slice();
            let request = Request::Arrival {
                from: *from,
                to: nodes[0],
                time: asked.time,
                hold: asked.slack,
            };
            let wish = Wish {
                name: asked.flight,
                class: *class,
                request,
            };
            check_new_to_any(airport, held, known, &wish, nodes, block)
        }
        NamedAny::Refused { why } => pass_if(is_refusal(&block, why)),
    }
}

/// Checks the block of a departure to one of some runway nodes.
pub fn check_departure_any(
    alloc: Global,
    airport: &Airport,
    held: &mut HeldFlights,
    known: &mut KnownWindows,
    asked: &AskedAny,
    block: Block,
) -> Result<(), CheckRefused>
    requires ready { IsReady airport.now held.old known.old }
    requires time { IsShort asked.now.time }
    requires queue { IsShort asked.now.slack }
    requires some { 0 < length asked.now.nodes }
    ensures judged { IsJudged airport.now (command.DepartureAny asked.now) block (state_of held.old) result (state_of held.new) }
    ensures ready { IsReady airport.now held.new known.new }
{
    let named = named_departure_any(alloc, airport, held, asked)?;
    match &named {
        NamedAny::Named { class, from, nodes } => {
            let nodes = nodes.as_slice();
            let request = Request::Departure {
                from: *from,
                to: nodes[0],
                time: asked.time,
                queue: asked.slack,
            };
            let wish = Wish {
                name: asked.flight,
                class: *class,
                request,
            };
            check_new_to_any(airport, held, known, &wish, nodes, block)
        }
        NamedAny::Refused { why } => pass_if(is_refusal(&block, why)),
    }
}
